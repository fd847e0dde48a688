// Source texts and their flat statements, worked out by hand.

use crate::shown::show_alike;
use std::test::Fail;

#[test]
fn statements_of_texts(rt: HostRuntime) -> Result<(), Fail> {
    let rows = [
        (
            "(fn main (a) (r) (set r (add (mul a a) 1)))",
            "(0) -> (1) of 3: Mul 2 0 0; Add 1 2 #1;\n",
        ),
        // Variables stand for themselves, and come in the order of their first place.
        (
            "(fn f (b a) (r) (set c (sub a b)) (set r c))",
            "(0 1) -> (2) of 4: Sub 3 1 0; copy 2 3;\n",
        ),
        // A temporary is free again in the next operand where no operand holds it.
        (
            "(fn f (a) (r) (set r (sub (add a (and a a)) (or a a))))",
            "(0) -> (1) of 4: And 3 0 0; Add 2 0 3; Or 3 0 0; Sub 1 2 3;\n",
        ),
        (
            "(fn f (p) () (store4 p (load1 (add p 1))) (store2 (add p p) p))",
            "(0) -> () of 2: load One 1 0 1; store Four 0 1 0; \
            Add 1 0 0; store Two 1 0 0;\n",
        ),
        (
            "(fn f (i) (r) (set r (table2 (1 2 3 4) i)) (set i (table1 (7) 0)))",
            "(0) -> (1) of 3: table Two 1 4 0; lit 2 0; table One 0 1 2;\n",
        ),
        // Each part of a conditional expression stands in its branch alone.
        (
            "(fn main (a) (r) (set r (ite a (divu 100 a) (load4 0))))",
            "(0) -> (1) of 3: if 0 [ lit 2 100; Divu 1 2 0; ] [ lit 2 0; load Four 1 2 0; ]\n",
        ),
        // A loop computes its test again on each turn, but a
        // literal in it is set once, at the start.
        (
            "(fn main () (r) (set r 0) (while (ltu r 9) (set r (add r 4))))",
            "() -> (0) of 2: lit 1 9; lit 0 0; loop [ ] Ltu 0 1 [ Add 0 0 #4; ]\n",
        ),
        // A literal that fits is a constant, on the left only where operands may be exchanged.
        (
            "(fn f (a) (r) (set r (sub a 2048)) (set r (add a 2048)) (set r (sub 1 a)) \
            (set r (and 7 a)) (set r (slu a 32)) (set r (slu a 31)))",
            "(0) -> (1) of 3: Sub 1 0 #2048; lit 2 2048; Add 1 0 2; lit 2 1; Sub 1 2 0; \
            And 1 0 #7; lit 2 32; Slu 1 0 2; Slu 1 0 #31;\n",
        ),
        (
            "(fn f (a) (r) (set r (add a 0xfffff800)) (set r (sub a 0xfffff800)) (set r (eq 3 a)) \
            (set r (mul a 4)) (set r (ltu 3 a)))",
            "(0) -> (1) of 3: Add 1 0 #-2048; lit 2 4294965248; Sub 1 0 2; Eq 1 0 #3; \
            Slu 1 0 #2; lit 2 3; Ltu 1 2 0;\n",
        ),
        // What is added to an address is its byte offset, where it is from -2048 to 2047.
        (
            "(fn f (p) (r) (set r (load4 (add p 2047))) (store1 (add 0xfffff800 p) r) \
            (set r (load2 (add p 2048))) (store4 (sub p 4) r))",
            "(0) -> (1) of 4: load Four 1 0 2047; store One 0 1 -2048; \
            lit 3 2048; Add 2 0 3; load Two 1 2 0; Sub 2 0 #4; store Four 2 1 0;\n",
        ),
        // A comparison is tested itself, and the opposite one where it is compared with 0.
        (
            "(fn f (a b) (r) (if (eq (ltu a b) 0) (then (set r 1)) (else (set r (lts a b)))))",
            "(0 1) -> (2) of 3: if Geu 0 1 [ lit 2 1; ] [ Lts 2 0 1; ]\n",
        ),
        (
            "(fn f (a) (r) (set r (ite (eq (eq a 0) 0) 7 a)) (while (eq (mul a a) 0)))",
            "(0) -> (1) of 4: lit 2 0; if 0 [ lit 1 7; ] [ copy 1 0; ] \
            loop [ Mul 3 0 0; ] Eq 3 2 [ ]\n",
        ),
        // Where the test is whether a word is 0 that word is tested, and the parts are exchanged.
        (
            "(fn f (a) (r) (if (eq a 0) (then (set r 1)) (else (set r 2))) \
            (if (eq 0 (add a 1)) (then (set r 3)) (else)) (set r (ite (eq a 0) 4 a)))",
            "(0) -> (1) of 3: if 0 [ lit 1 2; ] [ lit 1 1; ] Add 2 0 #1; if 2 [ ] [ lit 1 3; ] \
            if 0 [ copy 1 0; ] [ lit 1 4; ]\n",
        ),
        (
            "(fn f (a b) (r) (if (eq (eq b 0) 0) (then (set r 1)) (else (set r 2))) \
            (while (eq 0 (eq a 0)) (set a (sub a 1))) (while (eq (lts a b) 0) (set a b)))",
            "(0 1) -> (2) of 3: if 1 [ lit 2 1; ] [ lit 2 2; ] loop [ ] 0 [ Sub 0 0 #1; ] \
            loop [ ] Ges 0 1 [ copy 0 1; ]\n",
        ),
        // Operations on literals are computed, also those on what was computed.
        (
            "(fn f (a) (r) (set r (add a (sub (mul 3 4) (divu 9 2)))) (set r (divu 5 (xor 3 3))) \
            (set r (remu 7 0)) (set r (srs 0x80000000 36)) (set r (lts 0xffffffff 0)) \
            (set r (load4 (add (add 1024 1024) a))))",
            "(0) -> (1) of 4: Add 1 0 #8; lit 1 4294967295; lit 1 7; lit 1 4160749568; lit 1 1; \
            lit 3 2048; Add 2 0 3; load Four 1 2 0;\n",
        ),
        // Products, quotients and remainders by powers of two, and others.
        (
            "(fn f (a) (r) (set r (mul 8 a)) (set r (divu a 16)) (set r (remu a 2048)) \
            (set r (remu a 4096)) (set r (divu a 0x80000000)) (set r (mul a 1)))",
            "(0) -> (1) of 3: Slu 1 0 #3; Sru 1 0 #4; And 1 0 #2047; lit 2 4095; And 1 0 2; \
            Sru 1 0 #31; Slu 1 0 #0;\n",
        ),
        (
            "(fn f (a) (r) (set r (mul a 6)) (set r (divu 16 a)) (set r (remu a 0)) \
            (set r (mulhuu 4 a)))",
            "(0) -> (1) of 3: lit 2 6; Mul 1 0 2; lit 2 16; Divu 1 2 0; lit 2 0; Remu 1 0 2; \
            lit 2 4; Mulhuu 1 0 2;\n",
        ),
        // A part that is never run is left out, and so are its variables.
        (
            "(fn f (a) (r) (if (eq 2 2) (then (set r 1)) (else (set x (load4 a)))) \
            (if (ltu 2 2) (then (call () g)) (else (set y a))) (while (sub 1 1) (set z a)) \
            (set r (ite 0 (divu a y) (ite 2 y a)))) (fn g () ())",
            "(0) -> (1) of 3: lit 1 1; copy 2 0; copy 1 2;\n() -> () of 0:\n",
        ),
        (
            "(fn f (a) (r) (if a (then (set r 1)) (else (unset r) (seq (skip) (set r 2)))))",
            "(0) -> (1) of 2: if 0 [ lit 1 1; ] [ lit 1 2; ]\n",
        ),
        (
            "(fn f () (r) (stackalloc p 8 (interact (r) MMIOREAD p) (interact () MMIOWRITE p (add \
            r 1))))",
            "() -> (0) of 3: stackalloc 1 8 [ read 0 1; Add 2 0 #1; write 1 2; ]\n",
        ),
        // Functions are numbered in the order of the text, whatever stands first in a call.
        (
            "(fn main (x) (y z) (call (y z) g (mul x x) x)) (fn g (a b) (b a))",
            "(0) -> (1 2) of 4: Mul 3 0 0; call (1 2) 1 (3 0);\n(0 1) -> (1 0) of 2:\n",
        ),
        (
            "(fn main () () (interact () MMIOWRITE 0x1001200C (add 5 7)))",
            "() -> () of 2: lit 0 268509196; lit 1 12; write 0 1;\n",
        ),
        (
            "(fn sum (n) (total last) (set total 0) (set last (sub n 1)) \
            (while n (set total (add total n)) (set n (sub n 1))))",
            "(0) -> (1 2) of 3: lit 1 0; Sub 2 0 #1; loop [ ] 0 [ Add 1 1 0; Sub 0 0 #1; ]\n",
        ),
        // The last operation writes the variable that is set, and a variable alone is copied.
        (
            "(fn f (a) (r) (set r 7) (set r a) (set r (load2 a)) (set r (table1 (1 2 3 4) a)) \
            (set r (or a r)) (set r (ite a r 3)))",
            "(0) -> (1) of 2: lit 1 7; copy 1 0; load Two 1 0 0; table One 1 4 0; Or 1 0 1; \
            if 0 [ copy 1 1; ] [ lit 1 3; ]\n",
        ),
        // Each operation on two literals.
        (
            "(fn f () (r) (set r (add 0xffffffff 2)) (set r (sub 1 2)) (set r (mul 65536 65537)) \
            (set r (mulhuu 65536 65537)) (set r (divu 7 2)) (set r (remu 7 2)) (set r (and 12 10)) \
            (set r (or 12 10)) (set r (xor 12 10)) (set r (sru 0x80000000 31)) (set r (slu 1 31)) \
            (set r (srs 0x80000000 31)) (set r (lts 0xffffffff 0)) (set r (ltu 0xffffffff 0)) \
            (set r (eq 7 7)))",
            "() -> (0) of 1: lit 0 1; lit 0 4294967295; lit 0 65536; lit 0 1; lit 0 3; lit 0 1; \
            lit 0 8; lit 0 14; lit 0 6; lit 0 1; lit 0 2147483648; lit 0 4294967295; lit 0 1; \
            lit 0 0; lit 0 1;\n",
        ),
        // A literal on the left goes to the right where operands
        // may be exchanged, and stays elsewhere.
        (
            "(fn f (a) (r) (set r (add 5 a)) (set r (mul 6 a)) (set r (mulhuu 7 a)) (set r (and 5 \
            a)) \
            (set r (or 5 a)) (set r (xor 5 a)) (set r (eq 5 a)))",
            "(0) -> (1) of 3: Add 1 0 #5; lit 2 6; Mul 1 0 2; lit 2 7; Mulhuu 1 0 2; And 1 0 #5; \
            Or 1 0 #5; Xor 1 0 #5; Eq 1 0 #5;\n",
        ),
        (
            "(fn f (a) (r) (set r (sub 5 a)) (set r (divu 5 a)) (set r (remu 5 a)) (set r (slu 5 \
            a)) \
            (set r (sru 5 a)) (set r (srs 5 a)) (set r (lts 5 a)) (set r (ltu 5 a)))",
            "(0) -> (1) of 3: lit 2 5; Sub 1 2 0; Divu 1 2 0; Remu 1 2 0; Slu 1 2 0; Sru 1 2 0; \
            Srs 1 2 0; Lts 1 2 0; Ltu 1 2 0;\n",
        ),
        // The least and the greatest power of two.
        (
            "(fn f (a) (r) (set r (mul a 0x80000000)) (set r (divu a 1)) (set r (remu a 1)) \
            (set r (remu a 0x80000000)))",
            "(0) -> (1) of 3: Slu 1 0 #31; Sru 1 0 #0; And 1 0 #0; lit 2 2147483647; And 1 0 2;\n",
        ),
        // One byte offset of two, and one below the least.
        (
            "(fn f (p) (r) (set r (load4 (add (add p 8) 4))) (set r (load1 (add p 0xfffff7ff))) \
            (store4 (add (mul p p) 4) (mul r r)))",
            "(0) -> (1) of 4: Add 2 0 #8; load Four 1 2 4; lit 3 4294965247; Add 2 0 3; \
            load One 1 2 0; Mul 2 0 0; Mul 3 1 1; store Four 2 3 4;\n",
        ),
        // Each comparison, and its opposite.
        (
            "(fn f (a b) (r) (if (eq a b) (then (set r 1)) (else)) (if (lts a b) (then (set r 2)) \
            (else)) \
            (if (ltu a b) (then (set r 3)) (else)) (if (eq (eq a b) 0) (then (set r 4)) (else)) \
            (if (eq 0 (lts a b)) (then (set r 5)) (else)) (set r (ite (eq (ltu a b) 0) a b)))",
            "(0 1) -> (2) of 3: if Eq 0 1 [ lit 2 1; ] [ ] if Lts 0 1 [ lit 2 2; ] [ ] \
            if Ltu 0 1 [ lit 2 3; ] [ ] if Ne 0 1 [ lit 2 4; ] [ ] if Ges 0 1 [ lit 2 5; ] [ ] \
            if Geu 0 1 [ copy 2 0; ] [ copy 2 1; ]\n",
        ),
    ];
    show_alike(&rt, &rows)
}
