use super::*;

// Values of the operations at the ends of their ranges; those of a divisor of 0 and of amounts of
// 32 and more are RV32IM's.
#[test]
fn values_of_operations(rt: HostRuntime) {
    let rows = [
        (BinOp::Add, 0xffffffff, 2, 1),
        (BinOp::Sub, 1, 2, 0xffffffff),
        (BinOp::Mul, 0x10001, 0x10001, 0x20001),
        (BinOp::Mulhuu, 0xffffffff, 0xffffffff, 0xfffffffe),
        (BinOp::Divu, 0xfffffffe, 2, 0x7fffffff),
        (BinOp::Divu, 7, 0, 0xffffffff),
        (BinOp::Remu, 0xffffffff, 16, 15),
        (BinOp::Remu, 7, 0, 7),
        (BinOp::And, 0xff00ff00, 0x0ff00ff0, 0x0f000f00),
        (BinOp::Or, 0xff00ff00, 0x0ff00ff0, 0xfff0fff0),
        (BinOp::Xor, 0xff00ff00, 0x0ff00ff0, 0xf0f0f0f0),
        (BinOp::Sru, 0x80000000, 31, 1),
        (BinOp::Sru, 0x80000000, 33, 0x40000000),
        (BinOp::Slu, 3, 31, 0x80000000),
        (BinOp::Slu, 3, 32, 3),
        (BinOp::Srs, 0x80000000, 31, 0xffffffff),
        (BinOp::Srs, 0x7fffffff, 30, 1),
        (BinOp::Srs, 0xfffffff0, 0xffffffe4, 0xffffffff),
        (BinOp::Lts, 0x80000000, 0, 1),
        (BinOp::Lts, 0, 0x80000000, 0),
        (BinOp::Ltu, 0x80000000, 0, 0),
        (BinOp::Ltu, 0, 0x80000000, 1),
        (BinOp::Eq, 5, 5, 1),
        (BinOp::Eq, 5, 6, 0),
    ];
    for (o, a, b, value) in rows {
        assert_eq!(rt; op(o, a, b), value);
    }
}

#[test]
fn fields_of_words(rt: HostRuntime) {
    assert_eq!(rt; bits::<31, 0>(0x89abcdef), 0x89abcdef);
    assert_eq!(rt; bits::<31, 28>(0x89abcdef), 8);
    assert_eq!(rt; bits::<11, 7>(0x89abcdef), 0x1b);
    assert_eq!(rt; sext::<1>(1), 0xffffffff);
    assert_eq!(rt; sext::<12>(0x7ff), 0x7ff);
    assert_eq!(rt; sext::<12>(0x800), 0xfffff800);
    assert_eq!(rt; sext::<32>(0x80000000), 0x80000000);
}

#[test]
fn device_words(rt: HostRuntime) {
    let rows = [
        (0x10011ffc, false),
        (0x10012000, true),
        (0x10012002, false),
        (0x10012ffc, true),
        (0x10013000, true),
        (0x10013ffc, true),
        (0x10014000, false),
        (0x10023ffc, false),
        (0x10024000, true),
        (0x10024ffc, true),
        (0x10025000, false),
    ];
    for (address, is) in rows {
        assert_eq!(rt; device_word(address), is);
    }
    assert_eq!(rt;
        Size::One.bytes() + Size::Two.bytes() + Size::Four.bytes(),
        7
    );
}
