// Names and functions by number.

use br_numbering::{Index, Numbering};
use br_sexpr::read;
use br_syntax::from_tree;
use std::test::Fail;

#[test]
fn names_have_the_numbers_of_their_first_places(rt: HostRuntime) -> Result<(), Fail> {
    let mut names = Numbering::new(rt.alloc());
    assert_eq!(rt; names.add(b"b".as_slice())?, 0);
    assert_eq!(rt; names.add(b"a".as_slice())?, 1);
    assert_eq!(rt; names.add(b"b".as_slice())?, 0);
    assert_eq!(rt; names.add(b"c".as_slice())?, 2);
    assert_eq!(rt; names.len(), 3);
    assert_eq!(rt; names.number(b"a".as_slice()), 1);
    assert_eq!(rt; names.number(b"c".as_slice()), 2);
    assert_eq!(rt; names.number(b"d".as_slice()), 3);
    Ok(())
}

#[test]
fn a_name_means_the_first_function_that_has_it(rt: HostRuntime) -> Result<(), Fail> {
    let text = b"(fn f () ())(fn g () ())(fn f (a) ())";
    let program = from_tree(rt.alloc(), read(rt.alloc(), text)?.as_slice())?;
    let index = Index::new(rt.alloc(), program.funcs.as_slice())?;
    assert_eq!(rt; index.funcs.len(), 3);
    assert_eq!(rt; index.number(b"f".as_slice()), Some(0));
    assert_eq!(rt; index.number(b"g".as_slice()), Some(1));
    assert_eq!(rt; index.number(b"h".as_slice()), None);
    let Some(first) = index.function(b"f".as_slice()) else {
        return Err(Fail::new("no function f"));
    };
    assert_eq!(rt; first.at, 4);
    assert!(rt; index.function(b"h".as_slice()).is_none());
    Ok(())
}
