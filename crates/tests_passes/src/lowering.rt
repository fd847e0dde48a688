// What the passes together make of texts.

use br_compile::lower;
use br_flatimp::Stmt;
use sqlite_items::Items;
use std::alloc::Global;
use std::test::Fail;

// Each command sets the next name to the one before and 1.
const CHAIN: &str = "\
(fn main (a) (r) (set v1 (add a 1)) (set v2 (add v1 1)) (set v3 (add v2 1)) (set v4 \
(add v3 1)) (set v5 (add v4 1)) (set v6 (add v5 1)) (set v7 (add v6 1)) (set v8 (add \
v7 1)) (set v9 (add v8 1)) (set v10 (add v9 1)) (set v11 (add v10 1)) (set v12 (add \
v11 1)) (set v13 (add v12 1)) (set v14 (add v13 1)) (set v15 (add v14 1)) (set v16 \
(add v15 1)) (set v17 (add v16 1)) (set v18 (add v17 1)) (set v19 (add v18 1)) (set \
v20 (add v19 1)) (set v21 (add v20 1)) (set v22 (add v21 1)) (set v23 (add v22 1)) \
(set v24 (add v23 1)) (set v25 (add v24 1)) (set v26 (add v25 1)) (set v27 (add v26 \
1)) (set v28 (add v27 1)) (set v29 (add v28 1)) (set v30 (add v29 1)) (set v31 (add \
v30 1)) (set v32 (add v31 1)) (set v33 (add v32 1)) (set v34 (add v33 1)) (set v35 \
(add v34 1)) (set v36 (add v35 1)) (set v37 (add v36 1)) (set v38 (add v37 1)) (set \
v39 (add v38 1)) (set v40 (add v39 1)) (set r v40))";

// The statements of the only function of a text.
fn body_of(alloc: Global, text: &str) -> Result<Items<Stmt>, Fail> {
    let lowered = lower(alloc, text.as_bytes())?;
    let mut funcs = lowered.flat.funcs;
    let f = funcs.pop().ok_or("no function")?;
    Ok(f.body)
}

fn is_buffer(s: &Stmt) -> bool {
    matches!(s, Stmt::Stackalloc(..))
}

// The first sum is dead, and each 9 and 5 fits an operation.
#[test]
fn a_dead_sum_and_a_constant(rt: HostRuntime) -> Result<(), Fail> {
    let text = "(fn main (a) (r) (set d (add a 9)) (set r (add a 5)))";
    let body = body_of(rt.alloc(), text)?;
    let body = body.as_slice();
    assert!(rt; !body.iter().any(is_buffer));
    assert!(rt; !body.iter().any(|s| matches!(s, Stmt::Lit(..))));
    let sums = body.iter().filter(|s| matches!(s, Stmt::Op(..))).count();
    assert_eq!(rt; sums, 1);
    Ok(())
}

// Forty-two names need two registers.
#[test]
fn names_in_turn_share_registers(rt: HostRuntime) -> Result<(), Fail> {
    let body = body_of(rt.alloc(), CHAIN)?;
    assert!(rt; !body.as_slice().iter().any(is_buffer));
    Ok(())
}
