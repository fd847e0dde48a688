// Printing what was read.

use br_sexpr::{print, read};
use std::test::Fail;

#[test]
fn prints_what_it_reads(rt: HostRuntime) -> Result<(), Fail> {
    let table = [
        ("", ""),
        (
            "(fn  f (x)(y) ; note\n (set y 0x10))",
            "(fn f (x) (y) (set y 16))\n",
        ),
        ("0xFFFFffff 0 ()(())\t_", "4294967295\n0\n()\n(())\n_\n"),
    ];
    for (text, answer) in table {
        assert!(rt; text.len() < 100);
        let Ok(trees) = read(rt.alloc(), text.as_bytes()) else {
            return Err("not read".into());
        };
        let printed = print(rt.alloc(), trees.as_slice()).map_err(|_| "no memory")?;
        assert_eq!(rt; printed.as_slice(), answer.as_bytes());
    }
    Ok(())
}
