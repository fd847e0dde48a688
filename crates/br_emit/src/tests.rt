// The words of pieces of code. They are those that an assembler for RV32IM makes of
// the instructions that stand beside them.

use crate::CodeBuffer;
use crate::code::Code;
use crate::constant_tables::table;
use crate::forgotten::find_forgotten;
use crate::framing::{entry, exit, move_stack, restore, save};
use crate::jumps::{back_words, call, if_head, if_middle, loop_back, loop_head, over, over_words};
use crate::registers::saved;
use crate::sets::EVERY;
use crate::straight::{constant, copy, load_op, operation, place, store_op};
use br_base::Name;
use br_flatimp::{Cond, FlatFunc, Operand, Rel, Stmt};
use br_rv32im::Ins;
use br_words::{BinOp, Size};
use sqlite_items::Items;
use std::alloc::Global;
use std::test::Fail;

#[test]
fn buffers_keep_words_and_offsets(rt: HostRuntime) -> Result<(), Fail> {
    let mut code = CodeBuffer::with_room(rt.alloc(), 3, 1, 1)?;
    assert_eq!(rt; code.words(), [].as_slice());
    assert_eq!(rt; code.offsets(), [].as_slice());
    code.push(7);
    code.push(8);
    code.push(9);
    code.patch(1, 5);
    assert_eq!(rt; code.words(), [7, 5, 9].as_slice());
    assert_eq!(rt; code.offsets(), [].as_slice());
    Ok(())
}

#[test]
fn constants(rt: HostRuntime) -> Result<(), Fail> {
    let mut code = Code::with_room(rt.alloc(), 16)?;
    // addi x5, x0, 7
    constant(&mut code, 5, 7);
    // lui x5, 0x12345; addi x5, x5, 0x678
    constant(&mut code, 5, 0x12345678);
    // lui x5, 2; addi x5, x5, -2048
    constant(&mut code, 5, 0x1800);
    // addi x5, x0, -2048
    constant(&mut code, 5, 0xfffff800);
    // lui x5, 1
    constant(&mut code, 5, 0x1000);
    assert_eq!(rt;
        code.words(),
        [
            0x00700293, 0x123452b7, 0x67828293, 0x000022b7, 0x80028293, 0x80000293, 0x000012b7,
        ]
        .as_slice()
    );
    Ok(())
}

#[test]
#[tactic(auto, using(crate::proofs::Totals::op_most))]
fn operations_on_two_registers(rt: HostRuntime) -> Result<(), Fail> {
    for (op, word) in [
        // add x5, x6, x7, and so on
        (BinOp::Add, 0x007302b3),
        (BinOp::Sub, 0x407302b3),
        (BinOp::Mul, 0x027302b3),
        (BinOp::Mulhuu, 0x027332b3),
        (BinOp::Divu, 0x027352b3),
        (BinOp::Remu, 0x027372b3),
        (BinOp::And, 0x007372b3),
        (BinOp::Or, 0x007362b3),
        (BinOp::Xor, 0x007342b3),
        (BinOp::Sru, 0x007352b3),
        (BinOp::Slu, 0x007312b3),
        (BinOp::Srs, 0x407352b3),
        (BinOp::Lts, 0x007322b3),
        (BinOp::Ltu, 0x007332b3),
    ] {
        let mut code = Code::with_room(rt.alloc(), 2)?;
        operation(&mut code, 5, op, 6, Operand::Name(7));
        assert_eq!(rt; code.words(), [word].as_slice());
    }
    Ok(())
}

#[test]
fn copies_and_operations_with_numbers(rt: HostRuntime) -> Result<(), Fail> {
    let mut code = Code::with_room(rt.alloc(), 16)?;
    // addi x5, x6, 0
    copy(&mut code, 5, 6);
    // nothing
    copy(&mut code, 5, 5);
    // sub x5, x6, x7; sltiu x5, x5, 1
    operation(&mut code, 5, BinOp::Eq, 6, Operand::Name(7));
    // xori x5, x6, -7; sltiu x5, x5, 1
    operation(&mut code, 5, BinOp::Eq, 6, Operand::Const(-7));
    // addi x5, x6, 2047
    operation(&mut code, 5, BinOp::Add, 6, Operand::Const(2047));
    // addi x5, x6, -2048
    operation(&mut code, 5, BinOp::Sub, 6, Operand::Const(2048));
    // andi x5, x6, -1
    operation(&mut code, 5, BinOp::And, 6, Operand::Const(-1));
    // ori x5, x6, -2048
    operation(&mut code, 5, BinOp::Or, 6, Operand::Const(-2048));
    // xori x5, x6, 2047
    operation(&mut code, 5, BinOp::Xor, 6, Operand::Const(2047));
    // srli x5, x6, 31
    operation(&mut code, 5, BinOp::Sru, 6, Operand::Const(31));
    // slli x5, x6, 1
    operation(&mut code, 5, BinOp::Slu, 6, Operand::Const(1));
    // srai x5, x6, 31
    operation(&mut code, 5, BinOp::Srs, 6, Operand::Const(31));
    // slti x5, x6, -5
    operation(&mut code, 5, BinOp::Lts, 6, Operand::Const(-5));
    // sltiu x5, x6, -1
    operation(&mut code, 5, BinOp::Ltu, 6, Operand::Const(-1));
    assert_eq!(rt;
        code.words(),
        [
            0x00030293, 0x407302b3, 0x0012b293, 0xff934293, 0x0012b293, 0x7ff30293, 0x80030293,
            0xfff37293, 0x80036293, 0x7ff34293, 0x01f35293, 0x00131293, 0x41f35293, 0xffb32293,
            0xfff33293,
        ]
        .as_slice()
    );
    Ok(())
}

#[test]
fn accesses(rt: HostRuntime) -> Result<(), Fail> {
    let mut code = Code::with_room(rt.alloc(), 16)?;
    // lbu x5, -1(x6); lhu x5, 2(x6); lw x5, -2048(x6)
    code.put(Ins::Load(load_op(Size::One), 5, 6, -1));
    code.put(Ins::Load(load_op(Size::Two), 5, 6, 2));
    code.put(Ins::Load(load_op(Size::Four), 5, 6, -2048));
    // sb x6, 1(x5); sh x6, 2047(x5); sw x6, -2048(x5)
    code.put(Ins::Store(store_op(Size::One), 5, 6, 1));
    code.put(Ins::Store(store_op(Size::Two), 5, 6, 2047));
    code.put(Ins::Store(store_op(Size::Four), 5, 6, -2048));
    // addi x5, sp, 2032
    place(&mut code, 5, 2032);
    // lui x5, 1; addi x5, x5, -2048; add x5, x5, sp
    place(&mut code, 5, 2048);
    // lui x5, 16; add x5, x5, sp
    place(&mut code, 5, 65536);
    assert_eq!(rt;
        code.words(),
        [
            0xfff34283, 0x00235283, 0x80032283, 0x006280a3, 0x7e629fa3, 0x8062a023, 0x7f010293,
            0x000012b7, 0x80028293, 0x002282b3, 0x000102b7, 0x002282b3,
        ]
        .as_slice()
    );
    Ok(())
}

#[test]
fn tables_of_one_and_two_bytes(rt: HostRuntime) -> Result<(), Fail> {
    let mut code = Code::with_room(rt.alloc(), 16)?;
    // jal x1, 8; the bytes; add x1, x1, x6; lbu x5, 0(x1)
    table(&mut code, 5, Size::One, &[1], 6);
    // jal x1, 8; the bytes; add x1, x1, x6; lhu x5, 0(x1)
    table(&mut code, 5, Size::Two, &[1, 2], 6);
    assert_eq!(rt;
        code.words(),
        [
            0x008000ef, 0x00000001, 0x006080b3, 0x0000c283, 0x008000ef, 0x00000201, 0x006080b3,
            0x0000d283,
        ]
        .as_slice()
    );
    Ok(())
}

#[test]
fn tables_of_three_and_five_bytes(rt: HostRuntime) -> Result<(), Fail> {
    let mut code = Code::with_room(rt.alloc(), 16)?;
    // jal x1, 8; the bytes; add x1, x1, x6; lbu x5, 0(x1)
    table(&mut code, 5, Size::One, &[1, 2, 3], 6);
    // jal x1, 12; the bytes; add x1, x1, x6; lw x5, 0(x1)
    table(&mut code, 5, Size::Four, &[1, 2, 3, 4, 5], 6);
    assert_eq!(rt;
        code.words(),
        [
            0x008000ef, 0x00030201, 0x006080b3, 0x0000c283, 0x00c000ef, 0x04030201, 0x00000005,
            0x006080b3, 0x0000a283,
        ]
        .as_slice()
    );
    Ok(())
}

#[test]
fn jumps_at_the_edge_of_their_reach(rt: HostRuntime) -> Result<(), Fail> {
    let mut code = Code::with_room(rt.alloc(), 16)?;
    // jal x0, 1048572
    over(&mut code, 0, 262_142);
    // auipc x1, 256; jalr x0, 4(x1)
    over(&mut code, 0, 262_143);
    let test = Cond::Compare(Rel::Ltu, 5, 6);
    // bltu x5, x6, -4096
    loop_back(&mut code, test, 1024);
    // bgeu x5, x6, 8; jal x0, -4104
    loop_back(&mut code, test, 1025);
    assert_eq!(rt;
        code.words(),
        [
            0x7fdff06f, 0x00100097, 0x00408067, 0x8062e063, 0x0062f463, 0xff9fe06f,
        ]
        .as_slice()
    );
    assert_eq!(rt; (over_words(262_142), over_words(262_143)), (1, 2));
    assert_eq!(rt;
        (back_words(1024), back_words(1025), back_words(262_144)),
        (1, 2, 3)
    );
    Ok(())
}

#[test]
fn conditionals_loops_and_calls(rt: HostRuntime) -> Result<(), Fail> {
    let mut code = Code::with_room(rt.alloc(), 16)?;
    let test = Cond::Compare(Rel::Ltu, 5, 6);
    // bgeu x5, x6, 4092
    if_head(&mut code, test, 1022, 0);
    // bltu x5, x6, 8; jal x0, 4096
    if_head(&mut code, test, 1023, 0);
    // bltu x5, x6, 8; jal x0, 4100
    if_head(&mut code, test, 1024, 0);
    // bne x7, x0, 8
    if_head(&mut code, Cond::NonZero(7), 0, 1);
    // beq x7, x0, 12; jal x0, 8
    if_head(&mut code, Cond::NonZero(7), 1, 1);
    if_middle(&mut code, 1, 1);
    // jal x0, 12
    loop_head(&mut code, 2);
    // lui x1, 0x80301; jalr x1, -2048(x1)
    call(&mut code, false, 0x80300800);
    // jal x1, 2004; jal x1, -48
    call(&mut code, true, 0x80300800);
    call(&mut code, true, 0x80300000);
    assert_eq!(rt;
        code.words(),
        [
            0x7e62fee3, 0x0062e463, 0x0000106f, 0x0062e463, 0x0040106f, 0x00039463, 0x00038663,
            0x0080006f, 0x00c0006f, 0x803010b7, 0x800080e7, 0x7d4000ef, 0xfd1ff0ef,
        ]
        .as_slice()
    );
    Ok(())
}

#[test]
fn frames_and_entries(rt: HostRuntime) -> Result<(), Fail> {
    let mut code = Code::with_room(rt.alloc(), 16)?;
    // addi sp, sp, -12; sw x1, 0(sp); sw x5, 4(sp); sw x9, 8(sp)
    move_stack(&mut code, 0xfffffff4);
    save(&mut code, 0, &[1, 5, 9]);
    // lw x1, 0(sp); addi sp, sp, 12; jalr x0, 0(x1)
    restore(&mut code, 0, &[1]);
    move_stack(&mut code, 12);
    exit(&mut code);
    // lui sp, 0x80300; lui x1, 0x80301; jalr x1, -2048(x1); ecall
    entry(&mut code, false, 0x80300800);
    // lui sp, 0x80300; jal x1, -48; ecall
    entry(&mut code, true, 0x80300000);
    assert_eq!(rt;
        code.words(),
        [
            0xff410113, 0x00112023, 0x00512223, 0x00912423, 0x00012083, 0x00c10113, 0x00008067,
            0x80300137, 0x803010b7, 0x800080e7, 0x00000073, 0x80300137, 0xfd1ff0ef, 0x00000073,
        ]
        .as_slice()
    );
    Ok(())
}

#[test]
fn stack_pointer_moves(rt: HostRuntime) -> Result<(), Fail> {
    let mut code = Code::with_room(rt.alloc(), 16)?;
    // addi sp, sp, 2032
    move_stack(&mut code, 2032);
    // addi sp, sp, -2048
    move_stack(&mut code, 0xfffff800);
    // lui x1, 1; addi x1, x1, -2048; add sp, sp, x1
    move_stack(&mut code, 2048);
    // lui x1, 16; add sp, sp, x1
    move_stack(&mut code, 65536);
    assert_eq!(rt;
        code.words(),
        [
            0x7f010113, 0x80010113, 0x000010b7, 0x80008093, 0x00110133, 0x000100b7, 0x00110133,
        ]
        .as_slice()
    );
    Ok(())
}

fn function(alloc: Global, name: &str, body: Items<Stmt>) -> Result<FlatFunc, Fail> {
    Ok(FlatFunc {
        name: Name::from_bytes(Vec::from_slice(alloc, name.as_bytes())?).ok_or("no name")?,
        args: Items::from_slice(alloc, &[10])?,
        results: Items::from_slice(alloc, &[10])?,
        names: 32,
        body,
    })
}

fn call_of(alloc: Global, g: u32) -> Result<Stmt, Fail> {
    Ok(Stmt::Call(
        Items::from_slice(alloc, &[10])?,
        g,
        Items::from_slice(alloc, &[10])?,
    ))
}

// What the function of a number saves, as a set.
fn saved_by(funcs: &[FlatFunc], sets: &[u32], n: usize) -> Result<u32, Fail> {
    let f = funcs.get(n).ok_or("no function")?;
    Ok(saved(sets, n, f))
}

// The caller needs x4 after the call in each turn of its loop, and x3 before it alone.
#[test]
fn a_function_saves_what_its_caller_needs(rt: HostRuntime) -> Result<(), Fail> {
    let alloc = rt.alloc();
    let mut body = Items::new(alloc);
    body.push(Stmt::Op(3, BinOp::Add, 10, Operand::Name(10)))?;
    body.push(Stmt::Lit(4, 7))?;
    body.push(Stmt::Op(10, BinOp::Add, 3, Operand::Name(4)))?;
    let mut turn = Items::new(alloc);
    turn.push(Stmt::Op(10, BinOp::Add, 3, Operand::Name(4)))?;
    turn.push(call_of(alloc, 0)?)?;
    turn.push(Stmt::Op(4, BinOp::Sub, 4, Operand::Const(1)))?;
    turn.push(Stmt::Lit(3, 2))?;
    let mut caller = Items::new(alloc);
    caller.push(Stmt::Lit(3, 1))?;
    caller.push(Stmt::Lit(4, 9))?;
    caller.push(Stmt::Loop(Items::new(alloc), Cond::NonZero(4), turn))?;
    let mut funcs = Items::new(alloc);
    funcs.push(function(alloc, "callee", body)?)?;
    funcs.push(function(alloc, "caller", caller)?)?;
    let mut sets = [EVERY; 2];
    find_forgotten(&mut sets, funcs.as_slice());
    assert_eq!(rt; saved_by(funcs.as_slice(), &sets, 0)?, 1 << 4);
    assert_eq!(rt; saved_by(funcs.as_slice(), &sets, 1)?, 0);
    Ok(())
}

// The last function needs x5 after a call of the one between, which
// has no such name: so the first saves it.
#[test]
fn a_function_saves_what_callers_of_its_caller_need(rt: HostRuntime) -> Result<(), Fail> {
    let alloc = rt.alloc();
    let mut leaf = Items::new(alloc);
    leaf.push(Stmt::Lit(5, 7))?;
    leaf.push(Stmt::Lit(6, 7))?;
    let mut between = Items::new(alloc);
    between.push(Stmt::Lit(6, 1))?;
    between.push(call_of(alloc, 0)?)?;
    let mut last = Items::new(alloc);
    last.push(Stmt::Lit(5, 1))?;
    last.push(call_of(alloc, 1)?)?;
    last.push(Stmt::Copy(10, 5))?;
    let mut funcs = Items::new(alloc);
    funcs.push(function(alloc, "leaf", leaf)?)?;
    funcs.push(function(alloc, "between", between)?)?;
    funcs.push(function(alloc, "last", last)?)?;
    let mut sets = [EVERY; 3];
    find_forgotten(&mut sets, funcs.as_slice());
    assert_eq!(rt; saved_by(funcs.as_slice(), &sets, 0)?, 1 << 5);
    assert_eq!(rt; saved_by(funcs.as_slice(), &sets, 1)?, 0);
    Ok(())
}
