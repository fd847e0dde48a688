// The programs of the folder examples.

use crate::shown::{show_alike, shown};
use std::test::Fail;

// The programs of the folder examples, without their comments.
#[test]
fn statements_of_examples(rt: HostRuntime) -> Result<(), Fail> {
    let rows = [
        (
            "(fn setup () ()
              (interact () MMIOWRITE 0x10012004 0x40000)
              (interact () MMIOWRITE 0x10012008 0x200000))
            (fn button () (held)
              (interact (pins) MMIOREAD 0x10012000)
              (set held (and (sru pins 18) 1)))
            (fn light (on) ()
              (interact () MMIOWRITE 0x1001200C (slu on 21)))
            (fn wait (turns) ()
              (while turns
                (set turns (sub turns 1))))
            (fn main (turns) ()
              (call () setup)
              (set on 0)
              (while 1
                (set on (sub 1 on))
                (call (held) button)
                (call () light (or on held))
                (call () wait turns)))",
            "() -> () of 2: lit 0 268509188; lit 1 262144; write 0 1; lit 0 268509192; \
            lit 1 2097152; write 0 1;\n\
            () -> (0) of 3: lit 2 268509184; read 1 2; Sru 2 1 #18; And 0 2 #1;\n\
            (0) -> () of 3: lit 1 268509196; Slu 2 0 #21; write 1 2;\n\
            (0) -> () of 1: loop [ ] 0 [ Sub 0 0 #1; ]\n\
            (0) -> () of 5: lit 3 1; call () 0 (); lit 1 0; loop [ ] 3 [ Sub 1 3 1; \
            call (2) 1 (); Or 4 1 2; call () 2 (4); call () 3 (0); ]\n",
        ),
        (
            "(fn main () ()
              (interact () MMIOWRITE 0x10012008 0x200000)
              (interact () MMIOWRITE 0x1001200C 0x200000))",
            "() -> () of 2: lit 0 268509192; lit 1 2097152; write 0 1; lit 0 268509196; \
            lit 1 2097152; write 0 1;\n",
        ),
        (
            "(fn sum (from n) (total)
              (set total 0)
              (while n
                (interact (stop) MMIOREAD 0x10012000)
                (if stop
                  (then (set n 0))
                  (else
                    (set total (add total (load4 from)))
                    (set from (add from 4))
                    (set n (sub n 1)))))
              (interact () MMIOWRITE 0x1001200C total))",
            "(0 1) -> (2) of 6: lit 4 268509184; lit 2 0; loop [ ] 1 [ read 3 4; if 3 [ lit 1 0; ] \
            [ load Four 5 0 0; Add 2 2 5; Add 0 0 #4; Sub 1 1 #1; ] ] \
            lit 5 268509196; write 5 2;\n",
        ),
        (
            "(fn operations (a b) (all)
              (set all (add a b))
              (set all (sub all (mul a b)))
              (set all (xor all (mulhuu a b)))
              (set all (or all (divu a b)))
              (set all (and all (remu a b)))
              (set all (xor all (slu a b)))
              (set all (xor all (sru a b)))
              (set all (xor all (srs a b)))
              (set all (add all (lts a b)))
              (set all (add all (ltu a b)))
              (set all (add all (eq a 0x2a)))
              (set all (ite (ltu a b) (sub b a) all)))
            (fn memory () (word)
              (stackalloc buffer 8
                (store1 buffer 1)
                (store2 (add buffer 2) 2)
                (store4 (add buffer 4) 4)
                (set word (load1 buffer))
                (set word (add word (load2 (add buffer 2))))
                (set word (add word (load4 (add buffer 4)))))
              (set word (add word (table1 (1 2 3 255) 3)))
              (set word (add word (table2 (1 0 2 0) 2)))
              (set word (add word (table4 (4 3 2 1) 0))))",
            "(0 1) -> (2) of 4: Add 2 0 1; Mul 3 0 1; Sub 2 2 3; Mulhuu 3 0 1; Xor 2 2 3; \
            Divu 3 0 1; Or 2 2 3; Remu 3 0 1; And 2 2 3; Slu 3 0 1; Xor 2 2 3; Sru 3 0 1; \
            Xor 2 2 3; Srs 3 0 1; Xor 2 2 3; Lts 3 0 1; Add 2 2 3; Ltu 3 0 1; Add 2 2 3; \
            Eq 3 0 #42; Add 2 2 3; if Ltu 0 1 [ Sub 2 1 0; ] [ copy 2 2; ]\n\
            () -> (0) of 4: stackalloc 1 8 [ lit 2 1; store One 1 2 0; lit 2 2; \
            store Two 1 2 2; lit 2 4; store Four 1 2 4; load One 0 1 0; \
            load Two 2 1 2; Add 0 0 2; \
            load Four 2 1 4; Add 0 0 2; ] \
            lit 3 3; table One 2 4 3; Add 0 0 2; lit 3 2; table Two 2 4 3; Add 0 0 2; \
            lit 3 0; table Four 2 4 3; Add 0 0 2;\n",
        ),
        (
            "(fn sum (n) (total last)
              (set total 0)
              (set last (sub n 1))
              (while n
                (set total (add total n))
                (set n (sub n 1))))
            (fn main () ()
              (skip)
              (interact (button) MMIOREAD 0x10012000)
              (if (eq button 0)
                (then)
                (else
                  (seq
                    (call (total last) sum button)
                    (interact () MMIOWRITE 0x1001200c total)
                    (unset last)))))",
            "(0) -> (1 2) of 3: lit 1 0; Sub 2 0 #1; loop [ ] 0 [ Add 1 1 0; Sub 0 0 #1; ]\n\
            () -> () of 4: lit 3 268509184; read 0 3; \
            if 0 [ call (1 2) 0 (0); lit 3 268509196; write 3 1; ] [ ]\n",
        ),
    ];
    show_alike(&rt, &rows)
}

// The others of that folder, and how many functions each has.
#[test]
fn examples_are_flattened(rt: HostRuntime) -> Result<(), Fail> {
    let alloc = rt.alloc();
    let rows = [
        (
            "(fn base64 (from n to) (count bad) (set count 0) (set bad 0) (set bits 0) (set \
            kept 0) (while n (call (value) value_of (load1 from)) (if (ltu value 64) (then \
            (set bits (or (slu bits 6) value)) (set kept (add kept 6)) (if (ltu kept 8) (then) \
            (else (set kept (sub kept 8)) (store1 (add to count) (sru bits kept)) (set count \
            (add count 1))))) (else (set bad (eq value 255)))) (set from (add from 1)) (set n \
            (ite bad 0 (sub n 1))))) (fn value_of (character) (value) (set value 255) (set \
            place (sub character 43)) (if (ltu place 80) (then (set value (table1 ( 62 255 255 \
            255 63 52 53 54 55 56 57 58 59 60 61 255 255 255 64 255 255 255 0 1 2 3 4 5 6 7 8 \
            9 10 11 12 13 14 15 16 17 18 19 20 21 22 23 24 25 255 255 255 255 255 255 26 27 28 \
            29 30 31 32 33 34 35 36 37 38 39 40 41 42 43 44 45 46 47 48 49 50 51 ) place))) \
            (else)))",
            2,
        ),
        (
            "(fn crc32 (from n) (crc) (set crc 0xffffffff) (while n (set crc (xor crc (load1 \
            from))) (call (crc) four_bits crc) (call (crc) four_bits crc) (set from (add from \
            1)) (set n (sub n 1))) (set crc (xor crc 0xffffffff))) (fn four_bits (crc) (crc) \
            (set crc (xor (sru crc 4) (table4 ( 0 0 0 0 100 16 183 29 200 32 110 59 172 48 217 \
            38 144 65 220 118 244 81 107 107 88 97 178 77 60 113 5 80 32 131 184 237 68 147 15 \
            240 232 163 214 214 140 179 97 203 176 194 100 155 212 210 211 134 120 226 10 160 \
            28 242 189 189 ) (slu (and crc 15) 2)))))",
            2,
        ),
        (
            "(fn main () () (interact () MMIOWRITE 0x1001200C (add 5 7)))",
            1,
        ),
        (
            "(fn flash_id () (id bad) (set id 0) (interact () MMIOWRITE 0x10024018 2) (call \
            (byte bad) exchange 0x9f) (set left 3) (while left (set left (sub left 1)) (if bad \
            (then) (else (call (byte bad) exchange 0) (set id (or (slu id 8) byte))))) \
            (interact () MMIOWRITE 0x10024018 0) (set id (ite bad 0 id))) (fn exchange (out) \
            (in bad) (set in 0) (call (word bad) ready 0x10024048) (if bad (then) (else \
            (interact () MMIOWRITE 0x10024048 out) (call (word bad) ready 0x1002404C) (set in \
            (and word 255))))) (fn ready (register) (word bad) (set bad 1) (set turns 100) \
            (while turns (set turns (sub turns 1)) (interact (word) MMIOREAD register) (if \
            (lts word 0) (then) (else (set bad 0) (set turns 0)))))",
            3,
        ),
        (
            "(fn main () (lost) (interact () MMIOWRITE 0x10012004 0xc0000) (interact () \
            MMIOWRITE 0x10012008 0x200000) (set lost 0) (stackalloc ring 12 (call () \
            empty_ring ring) (set before 0) (set turn 0) (set go 1) (while go (interact (pins) \
            MMIOREAD 0x10012000) (set button (and (sru pins 18) 1)) (if (eq button before) \
            (then) (else (call (full) put ring button) (set lost (add lost full)) (set before \
            button))) (set turn (add turn 1)) (if (remu turn 3) (then) (else (call () \
            show_next ring))) (set go (eq (and (sru pins 19) 1) 0))))) (fn show_next (ring) () \
            (call (item empty) take ring) (if empty (then) (else (interact () MMIOWRITE \
            0x1001200C (slu item 21))))) (fn empty_ring (ring) () (store4 ring 0) (store4 (add \
            ring 4) 0)) (fn put (ring item) (full) (set count (load4 ring)) (set full (eq (sub \
            count (load4 (add ring 4))) 4)) (if full (then) (else (store1 (add ring (add 8 \
            (and count 3))) item) (store4 ring (add count 1))))) (fn take (ring) (item empty) \
            (set item 0) (set count (load4 (add ring 4))) (set empty (eq count (load4 ring))) \
            (if empty (then) (else (set item (load1 (add ring (add 8 (and count 3))))) (store4 \
            (add ring 4) (add count 1)))))",
            5,
        ),
        (
            "(fn sort (from n) () (set end (add from (slu n 2))) (set next (add from 4)) (while \
            (ltu next end) (set item (load4 next)) (set place next) (while (ite (eq place \
            from) 0 (ltu item (load4 (sub place 4)))) (store4 place (load4 (sub place 4))) \
            (set place (sub place 4))) (store4 place item) (set next (add next 4))))",
            1,
        ),
        (
            "(fn main () (sent lost) (interact () MMIOWRITE 0x10013018 138) (interact () \
            MMIOWRITE 0x10013008 1) (interact () MMIOWRITE 0x1001300C 1) (set sent 0) (set \
            lost 0) (stackalloc ring 16 (store4 ring 0) (store4 (add ring 4) 0) (set open 1) \
            (set left 0) (while (or open left) (interact (word) MMIOREAD 0x10013004) (if (lts \
            word 0) (then) (else (set byte (and word 255)) (if (eq byte 4) (then (set open 0)) \
            (else (call (full) put ring byte) (set lost (add lost full)))))) (call (done) \
            send_next ring) (set sent (add sent done)) (call (left) waiting ring)))) (fn \
            send_next (ring) (done) (set done 0) (call (n) waiting ring) (if n (then (interact \
            (word) MMIOREAD 0x10013000) (if (lts word 0) (then) (else (call (byte) take ring) \
            (interact () MMIOWRITE 0x10013000 byte) (set done 1)))) (else))) (fn waiting \
            (ring) (n) (set n (sub (load4 ring) (load4 (add ring 4))))) (fn put (ring byte) \
            (full) (call (n) waiting ring) (set full (eq n 8)) (if full (then) (else (set \
            count (load4 ring)) (store1 (add ring (add 8 (and count 7))) byte) (store4 ring \
            (add count 1))))) (fn take (ring) (byte) (set count (load4 (add ring 4))) (set \
            byte (load1 (add ring (add 8 (and count 7))))) (store4 (add ring 4) (add count \
            1)))",
            5,
        ),
        (
            "(fn main (al ah bl bh) (sl sh dl dh pl ph ql qh) (call (sl sh) plus al ah bl bh) \
            (call (dl dh) minus al ah bl bh) (call (pl ph) times al ah bl bh) (call (ql qh \
            rest) over al ah bl)) (fn plus (al ah bl bh) (l h) (set l (add al bl)) (set h (add \
            (add ah bh) (ltu l al)))) (fn minus (al ah bl bh) (l h) (set l (sub al bl)) (set h \
            (sub (sub ah bh) (ltu al bl)))) (fn times (al ah bl bh) (l h) (set l (mul al bl)) \
            (set h (add (mulhuu al bl) (add (mul al bh) (mul ah bl))))) (fn over (al ah b) (l \
            h rest) (set h (divu ah b)) (set rest (remu ah b)) (set l 0) (set bit 32) (while \
            bit (set bit (sub bit 1)) (set passes (sru rest 31)) (set rest (or (slu rest 1) \
            (and (sru al bit) 1))) (set l (slu l 1)) (if (or passes (eq (ltu rest b) 0)) (then \
            (set rest (sub rest b)) (set l (or l 1))) (else))))",
            5,
        ),
    ];
    for (text, count) in &rows {
        let found = shown(alloc, text)?;
        if found.lines().count() != *count {
            println!(rt; "{text}\n{found}")?;
            return Err(Fail::new("another count of functions"));
        }
    }
    Ok(())
}
