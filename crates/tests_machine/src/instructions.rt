use br_rv32im::*;
use std::test::Fail;

// Each instruction with the least, the greatest and another immediate, or with several registers:
// the text, and the word that LLVM's assembler makes of it.
static ROWS: [(u32, &str); 136] = [
    (0x00000037, "lui x0, 0x00000"),
    (0xffffffb7, "lui x31, 0xfffff"),
    (0x803002b7, "lui x5, 0x80300"),
    (0x00000017, "auipc x0, 0x00000"),
    (0xffffff97, "auipc x31, 0xfffff"),
    (0x80300297, "auipc x5, 0x80300"),
    (0x8000006f, "jal x0, -1048576"),
    (0x7fffffef, "jal x31, 1048574"),
    (0xff1ff2ef, "jal x5, -16"),
    (0x800f8067, "jalr x0, -2048(x31)"),
    (0x7ff00fe7, "jalr x31, 2047(x0)"),
    (0x005302e7, "jalr x5, 5(x6)"),
    (0x81f00063, "beq x0, x31, -4096"),
    (0x7e0f8fe3, "beq x31, x0, 4094"),
    (0xfe628ce3, "beq x5, x6, -8"),
    (0x81f01063, "bne x0, x31, -4096"),
    (0x7e0f9fe3, "bne x31, x0, 4094"),
    (0xfe629ce3, "bne x5, x6, -8"),
    (0x81f04063, "blt x0, x31, -4096"),
    (0x7e0fcfe3, "blt x31, x0, 4094"),
    (0xfe62cce3, "blt x5, x6, -8"),
    (0x81f05063, "bge x0, x31, -4096"),
    (0x7e0fdfe3, "bge x31, x0, 4094"),
    (0xfe62dce3, "bge x5, x6, -8"),
    (0x81f06063, "bltu x0, x31, -4096"),
    (0x7e0fefe3, "bltu x31, x0, 4094"),
    (0xfe62ece3, "bltu x5, x6, -8"),
    (0x81f07063, "bgeu x0, x31, -4096"),
    (0x7e0fffe3, "bgeu x31, x0, 4094"),
    (0xfe62fce3, "bgeu x5, x6, -8"),
    (0x800f8003, "lb x0, -2048(x31)"),
    (0x7ff00f83, "lb x31, 2047(x0)"),
    (0xffc30283, "lb x5, -4(x6)"),
    (0x800f9003, "lh x0, -2048(x31)"),
    (0x7ff01f83, "lh x31, 2047(x0)"),
    (0xffc31283, "lh x5, -4(x6)"),
    (0x800fa003, "lw x0, -2048(x31)"),
    (0x7ff02f83, "lw x31, 2047(x0)"),
    (0xffc32283, "lw x5, -4(x6)"),
    (0x800fc003, "lbu x0, -2048(x31)"),
    (0x7ff04f83, "lbu x31, 2047(x0)"),
    (0xffc34283, "lbu x5, -4(x6)"),
    (0x800fd003, "lhu x0, -2048(x31)"),
    (0x7ff05f83, "lhu x31, 2047(x0)"),
    (0xffc35283, "lhu x5, -4(x6)"),
    (0x800f8023, "sb x0, -2048(x31)"),
    (0x7ff00fa3, "sb x31, 2047(x0)"),
    (0xfe530e23, "sb x5, -4(x6)"),
    (0x800f9023, "sh x0, -2048(x31)"),
    (0x7ff01fa3, "sh x31, 2047(x0)"),
    (0xfe531e23, "sh x5, -4(x6)"),
    (0x800fa023, "sw x0, -2048(x31)"),
    (0x7ff02fa3, "sw x31, 2047(x0)"),
    (0xfe532e23, "sw x5, -4(x6)"),
    (0x800f8013, "addi x0, x31, -2048"),
    (0x7ff00f93, "addi x31, x0, 2047"),
    (0xfff30293, "addi x5, x6, -1"),
    (0x800fa013, "slti x0, x31, -2048"),
    (0x7ff02f93, "slti x31, x0, 2047"),
    (0xfff32293, "slti x5, x6, -1"),
    (0x800fb013, "sltiu x0, x31, -2048"),
    (0x7ff03f93, "sltiu x31, x0, 2047"),
    (0xfff33293, "sltiu x5, x6, -1"),
    (0x800fc013, "xori x0, x31, -2048"),
    (0x7ff04f93, "xori x31, x0, 2047"),
    (0xfff34293, "xori x5, x6, -1"),
    (0x800fe013, "ori x0, x31, -2048"),
    (0x7ff06f93, "ori x31, x0, 2047"),
    (0xfff36293, "ori x5, x6, -1"),
    (0x800ff013, "andi x0, x31, -2048"),
    (0x7ff07f93, "andi x31, x0, 2047"),
    (0xfff37293, "andi x5, x6, -1"),
    (0x000f9013, "slli x0, x31, 0"),
    (0x01f01f93, "slli x31, x0, 31"),
    (0x00331293, "slli x5, x6, 3"),
    (0x000fd013, "srli x0, x31, 0"),
    (0x01f05f93, "srli x31, x0, 31"),
    (0x00335293, "srli x5, x6, 3"),
    (0x400fd013, "srai x0, x31, 0"),
    (0x41f05f93, "srai x31, x0, 31"),
    (0x40335293, "srai x5, x6, 3"),
    (0x001f8033, "add x0, x31, x1"),
    (0x01000fb3, "add x31, x0, x16"),
    (0x007302b3, "add x5, x6, x7"),
    (0x401f8033, "sub x0, x31, x1"),
    (0x41000fb3, "sub x31, x0, x16"),
    (0x407302b3, "sub x5, x6, x7"),
    (0x001f9033, "sll x0, x31, x1"),
    (0x01001fb3, "sll x31, x0, x16"),
    (0x007312b3, "sll x5, x6, x7"),
    (0x001fa033, "slt x0, x31, x1"),
    (0x01002fb3, "slt x31, x0, x16"),
    (0x007322b3, "slt x5, x6, x7"),
    (0x001fb033, "sltu x0, x31, x1"),
    (0x01003fb3, "sltu x31, x0, x16"),
    (0x007332b3, "sltu x5, x6, x7"),
    (0x001fc033, "xor x0, x31, x1"),
    (0x01004fb3, "xor x31, x0, x16"),
    (0x007342b3, "xor x5, x6, x7"),
    (0x001fd033, "srl x0, x31, x1"),
    (0x01005fb3, "srl x31, x0, x16"),
    (0x007352b3, "srl x5, x6, x7"),
    (0x401fd033, "sra x0, x31, x1"),
    (0x41005fb3, "sra x31, x0, x16"),
    (0x407352b3, "sra x5, x6, x7"),
    (0x001fe033, "or x0, x31, x1"),
    (0x01006fb3, "or x31, x0, x16"),
    (0x007362b3, "or x5, x6, x7"),
    (0x001ff033, "and x0, x31, x1"),
    (0x01007fb3, "and x31, x0, x16"),
    (0x007372b3, "and x5, x6, x7"),
    (0x021f8033, "mul x0, x31, x1"),
    (0x03000fb3, "mul x31, x0, x16"),
    (0x027302b3, "mul x5, x6, x7"),
    (0x021f9033, "mulh x0, x31, x1"),
    (0x03001fb3, "mulh x31, x0, x16"),
    (0x027312b3, "mulh x5, x6, x7"),
    (0x021fa033, "mulhsu x0, x31, x1"),
    (0x03002fb3, "mulhsu x31, x0, x16"),
    (0x027322b3, "mulhsu x5, x6, x7"),
    (0x021fb033, "mulhu x0, x31, x1"),
    (0x03003fb3, "mulhu x31, x0, x16"),
    (0x027332b3, "mulhu x5, x6, x7"),
    (0x021fc033, "div x0, x31, x1"),
    (0x03004fb3, "div x31, x0, x16"),
    (0x027342b3, "div x5, x6, x7"),
    (0x021fd033, "divu x0, x31, x1"),
    (0x03005fb3, "divu x31, x0, x16"),
    (0x027352b3, "divu x5, x6, x7"),
    (0x021fe033, "rem x0, x31, x1"),
    (0x03006fb3, "rem x31, x0, x16"),
    (0x027362b3, "rem x5, x6, x7"),
    (0x021ff033, "remu x0, x31, x1"),
    (0x03007fb3, "remu x31, x0, x16"),
    (0x027372b3, "remu x5, x6, x7"),
    (0x00000073, "ecall"),
];

#[test]
fn words_and_texts(rt: HostRuntime) -> Result<(), Fail> {
    for (word, text) in ROWS.iter() {
        let i = decode(*word).ok_or("in no row")?;
        assert_eq!(rt; encode(i), *word);
        assert_eq!(rt; listing(rt.alloc(), i)?.as_slice(), text.as_bytes());
    }
    Ok(())
}

#[test]
fn instructions_and_words(rt: HostRuntime) {
    let rows = [
        (Ins::Imm(ImmOp::Addi, 5, 6, -1), 0xfff30293),
        (Ins::Shift(ShiftOp::Srai, 5, 6, 3), 0x40335293),
        (Ins::Branch(BranchOp::Beq, 1, 2, -8), 0xfe208ce3),
        (Ins::Jal(1, -16), 0xff1ff0ef),
        (Ins::Store(StoreOp::Sw, 2, 5, 8), 0x00512423),
        (Ins::Reg(RegOp::Mulhu, 5, 6, 7), 0x027332b3),
        (Ins::Upper(UpperOp::Lui, 5, 0x80300), 0x803002b7),
    ];
    for (i, word) in rows {
        assert_eq!(rt; decode(word), Some(i));
        assert!(rt; fits(i));
        assert_eq!(rt; encode(i), word);
    }
}

// EBREAK, the FENCE instructions, shifts and operations with another funct7, a load and a branch
// with a funct3 of no instruction, MRET, a compressed instruction, and the words of all zeros and
// all ones.
#[test]
fn words_in_no_row(rt: HostRuntime) {
    let words = [
        0x00100073, 0x0ff0000f, 0x0000100f, 0x02031293, 0x80335293, 0x207302b3, 0x04730233,
        0x0000b003, 0x00002063, 0x30200073, 0x00000001, 0x00000000, 0xffffffff,
    ];
    for word in words {
        assert_eq!(rt; decode(word), None);
    }
}

#[test]
fn opcodes_with_no_row(rt: HostRuntime) {
    let with_rows = [0x37, 0x17, 0x6f, 0x67, 0x63, 0x03, 0x23, 0x13, 0x33, 0x73];
    for opcode in 0..128u32 {
        if !with_rows.contains(&opcode) {
            assert_eq!(rt; decode(opcode), None);
            assert_eq!(rt; decode(0xffffff80 + opcode), None);
        }
    }
}
