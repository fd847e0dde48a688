use br_lightbulb::program;
use br_sexpr::print;
use br_syntax::to_tree;
use std::test::Fail;

const CANONICAL: &str = "\
(fn spi_put (b) (bad) (set bad 1) (set n 1000) (while n (interact (w) MMIOREAD \
268582984) (set n (sub n 1)) (if (lts w 0) (then) (else (set bad 0) (set n 0)))) (if bad \
(then) (else (interact () MMIOWRITE 268582984 b))))\n\
(fn spi_get () (b bad) (set b 0) (set bad 1) (set n 1000) (while n (interact (w) \
MMIOREAD 268582988) (set n (sub n 1)) (if (lts w 0) (then) (else (set bad 0) (set b (and \
w 255)) (set n 0)))))\n\
(fn spi_xchg (b) (r bad) (set r 0) (call (bad) spi_put b) (if bad (then) (else (call (r \
bad) spi_get))))\n\
(fn lan_read (a) (v bad) (set v 0) (interact () MMIOWRITE 268582936 2) (call (x bad) \
spi_xchg 3) (if bad (then) (else (call (x bad) spi_xchg (sru a 8)))) (if bad (then) \
(else (call (x bad) spi_xchg (and a 255)))) (set i 0) (while (ltu i 4) (if bad (then) \
(else (call (x bad) spi_xchg 0) (set v (or v (slu x (slu i 3)))))) (set i (add i 1))) \
(interact () MMIOWRITE 268582936 0))\n\
(fn lan_write (a v) (bad) (interact () MMIOWRITE 268582936 2) (call (x bad) spi_xchg 2) \
(if bad (then) (else (call (x bad) spi_xchg (sru a 8)))) (if bad (then) (else (call (x \
bad) spi_xchg (and a 255)))) (set i 0) (while (ltu i 4) (if bad (then) (else (call (x \
bad) spi_xchg (and (sru v (slu i 3)) 255)))) (set i (add i 1))) (interact () MMIOWRITE \
268582936 0))\n\
(fn boot () (bad) (interact (v) MMIOREAD 268509192) (interact () MMIOWRITE 268509192 (or \
v 8388608)) (set bad 1) (set t 200) (while t (set t (sub t 1)) (call (w f) lan_read 100) \
(if f (then (set t 0)) (else (if (eq w 2271560481) (then (set bad 0) (set t 0)) \
(else))))) (if bad (then) (else (call (bad) lan_write 116 1))))\n\
(fn receive (p) (n bad) (call (n bad) lan_read 64) (if bad (then) (else (set n (and n \
65535)) (set i 0) (while (ltu i n) (call (w bad) lan_read 0) (if bad (then (set n 0)) \
(else (if (ltu i 1520) (then (store4 (add p i) w)) (else)) (set i (add i 4))))))))\n\
(fn handle (p n) () (if (ltu n 43) (then) (else (if (ltu 1520 n) (then) (else (if (eq \
(load1 (add p 12)) 8) (then (if (eq (load1 (add p 13)) 0) (then (if (eq (load1 (add p \
23)) 17) (then (interact (v) MMIOREAD 268509196) (interact () MMIOWRITE 268509196 (or \
(and v 4286578687) (slu (and (load1 (add p 42)) 1) 23)))) (else))) (else))) (else)))))))\n\
(fn poll () (bad) (call (w bad) lan_read 124) (if bad (then) (else (if w (then \
(stackalloc p 1520 (call (n bad) receive p) (if bad (then) (else (call () handle p \
n))))) (else)))))\n\
(fn main () (bad) (call (bad) boot) (while (eq bad 0) (call (x) poll)))\n\
";

// The canonical text of the firmware.
#[test]
fn text_of_the_firmware(rt: HostRuntime) -> Result<(), Fail> {
    let trees = to_tree(rt.alloc(), &program(rt.alloc())?)?;
    let text = print(rt.alloc(), trees.as_slice())?;
    assert!(rt; text.as_slice() == CANONICAL.as_bytes());
    Ok(())
}
