// Which literals functions hold, worked out by hand. A literal weighs as much as its words of code
// in the temporaries that it is set to, eight times as much for each loop around. The heaviest are
// held, as far as they weigh two more than the words that set them once.

use crate::shown::show_alike;
use std::test::Fail;

#[test]
fn held_literals_of_texts(rt: HostRuntime) -> Result<(), Fail> {
    let rows = [
        // Of two words twice, of one word three times.
        (
            "(fn f (a) (r) (set r (mul a 5000)) (set r (mul a 5000)))",
            "(0) -> (1) of 3: lit 2 5000; Mul 1 0 2; Mul 1 0 2;\n",
        ),
        (
            "(fn f (a) (r) (set r (mul a 5000)))",
            "(0) -> (1) of 3: lit 2 5000; Mul 1 0 2;\n",
        ),
        (
            "(fn f (a) (r) (set r (mul a 8192)) (set r (mul a 6)) (set r (mul a 6)) (set r (mul \
            8193 a)))",
            "(0) -> (1) of 3: Slu 1 0 #13; lit 2 6; Mul 1 0 2; lit 2 6; Mul 1 0 2; lit 2 8193; Mul \
            1 0 2;\n",
        ),
        (
            "(fn f (a) (r) (set r (mul a 0x7000)) (set r (mul a 0x7000)) (set r (mul a 6)) \
            (set r (mul a 6)) (set r (mul a 6)))",
            "(0) -> (1) of 4: lit 2 6; lit 3 28672; Mul 1 0 3; lit 3 28672; Mul 1 0 3; \
            Mul 1 0 2; Mul 1 0 2; Mul 1 0 2;\n",
        ),
        // A literal that is a constant or a byte offset needs no name,
        // nor has one that a variable is set to.
        (
            "(fn f (a) (r) (while a (set r (and a 15)) (set r (load4 (add a 8))) (set r 5000)))",
            "(0) -> (1) of 2: loop [ ] 0 [ And 1 0 #15; load Four 1 0 8; lit 1 5000; ]\n",
        ),
        // Operands of each kind in a loop: of a store, a device, a table, an address and a test.
        (
            "(fn f (a) () (while a (store1 a 7) (interact () MMIOWRITE 0x10024048 a)))",
            "(0) -> () of 3: lit 1 268582984; lit 2 7; loop [ ] 0 [ store One 0 2 0; write 1 0; \
            ]\n",
        ),
        (
            "(fn f (a) (r) (while a (set r (table1 (1 2 3) 2)) (set r (load2 0x2000))))",
            "(0) -> (1) of 4: lit 2 2; lit 3 8192; \
            loop [ ] 0 [ table One 1 3 2; load Two 1 3 0; ]\n",
        ),
        (
            "(fn f (a) (r) (while a (if (ltu a 9) (then (set r (lts 9 a))) (else (set a (sub 9 \
            a))))))",
            "(0) -> (1) of 3: lit 2 9; loop [ ] 0 [ if Ltu 0 2 [ Lts 1 2 0; ] [ Sub 0 2 0; ] ]\n",
        ),
        // A loop on a literal, and loops in loops.
        (
            "(fn f (a) () (while 7 (set a (add a 1))))",
            "(0) -> () of 2: lit 1 7; loop [ ] 1 [ Add 0 0 #1; ]\n",
        ),
        (
            "(fn f (a) () (while 1 (store4 a (mul a 3))))",
            "(0) -> () of 4: lit 1 1; lit 2 3; loop [ ] 1 [ Mul 3 0 2; store Four 0 3 0; ]\n",
        ),
        (
            "(fn f (a) () (while 1 (while 2 (set a (add a 1)))))",
            "(0) -> () of 3: lit 1 2; lit 2 1; loop [ ] 2 [ loop [ ] 1 [ Add 0 0 #1; ] ]\n",
        ),
        // What a test compares with, 0 among it, where that is no test of the word itself.
        (
            "(fn f (a) () (while (ltu a 10) (set a (add a (mul a a)))) (while (ltu 3 a) (set a \
            (sub a 1))))",
            "(0) -> () of 4: lit 1 10; lit 2 3; loop [ ] Ltu 0 1 [ Mul 3 0 0; Add 0 0 3; ] \
            loop [ ] Ltu 2 0 [ Sub 0 0 #1; ]\n",
        ),
        (
            "(fn f (a) () (while (lts (load4 a) 10) (set a (add a 4))) \
            (while (eq (load1 a) 0) (set a (add a 1))))",
            "(0) -> () of 4: lit 1 10; lit 2 0; loop [ load Four 3 0 0; ] Lts 3 1 [ Add 0 0 #4; ] \
            loop [ load One 3 0 0; ] Eq 3 2 [ Add 0 0 #1; ]\n",
        ),
        // Eight at most, and the heaviest: the ninth is set where it is needed.
        (
            "(fn f (a) () (set a (mul a 51)) (while a (set a (mul a 11)) (set a (mul a 13)) \
            (set a (mul a 15)) (set a (mul a 17)) (set a (mul a 19)) (set a (mul a 21)) \
            (set a (mul a 23)) (set a (mul a 25)) (set a (mul a 4099))))",
            "(0) -> () of 10: lit 1 4099; lit 2 11; lit 3 13; lit 4 15; lit 5 17; lit 6 19; lit 7 \
            21; \
            lit 8 23; lit 9 51; Mul 0 0 9; loop [ ] 0 [ Mul 0 0 2; Mul 0 0 3; Mul 0 0 4; Mul 0 0 \
5; \
            Mul 0 0 6; Mul 0 0 7; Mul 0 0 8; lit 9 25; Mul 0 0 9; Mul 0 0 1; ]\n",
        ),
        // Beside nineteen variables there is room for one.
        (
            "(fn f (a) () (set b a) (set c a) (set d a) (set e a) (set g a) (set h a) (set i a) \
            (set j a) (set k a) (set l a) (set m a) (set n a) (set o a) (set p a) (set q a) (set s \
a) \
            (set t a) (set u a) (while a (set a (mul a 3)) (set a (mul a 5000))))",
            "(0) -> () of 21: lit 19 5000; copy 1 0; copy 2 0; copy 3 0; copy 4 0; copy 5 0; copy \
            6 0; copy 7 0; \
            copy 8 0; copy 9 0; copy 10 0; copy 11 0; copy 12 0; copy 13 0; copy 14 0; copy 15 0; \
            copy 16 0; copy 17 0; copy 18 0; loop [ ] 0 [ lit 20 3; Mul 0 0 20; Mul 0 0 19; ]\n",
        ),
        // In a function with calls, what loops without calls and tests of loops need.
        (
            "(fn f (a) () (call () g a 7) (call () g a 7) (call () g a 7) \
            (while (ltu a 9) (call () g 5 5) (while a (set a (mul a 11))))) (fn g (a b) ())",
            "(0) -> () of 5: lit 1 11; lit 2 9; lit 3 7; call () 1 (0 3); lit 3 7; call () 1 (0 \
            3); \
            lit 3 7; call () 1 (0 3); loop [ ] Ltu 0 2 [ lit 3 5; lit 4 5; call () 1 (3 4); \
            loop [ ] 0 [ Mul 0 0 1; ] ]\n(0 1) -> () of 2:\n",
        ),
        // Parts of a conditional expression set their name, so
        // holding their literals would be larger.
        (
            "(fn f (a) (r) (while a (set r (add (ite a 5000 6) a))))",
            "(0) -> (1) of 3: loop [ ] 0 [ if 0 [ lit 2 5000; ] [ lit 2 6; ] Add 1 2 0; ]\n",
        ),
    ];
    show_alike(&rt, &rows)
}
