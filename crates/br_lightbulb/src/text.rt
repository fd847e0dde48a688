// The text of the firmware.

/// The text. `spi_put`, `spi_get` and `spi_xchg` move a byte over SPI1, `lan_read` and `lan_write`
/// a word of the LAN9250, `boot` makes the light's pin an output and waits for the chip, `receive`
/// reads a frame, `handle` sets the light as the frame asks, `poll` looks once for a frame, and
/// `main` starts and then polls for ever.
pub const TEXT: &[u8] = b"\
(fn spi_put (b) (bad)
  (set bad 1) (set n 1000)
  (while n
    (interact (w) MMIOREAD 0x10024048)
    (set n (sub n 1))
    (if (lts w 0) (then) (else (set bad 0) (set n 0))))
  (if bad (then) (else (interact () MMIOWRITE 0x10024048 b))))
(fn spi_get () (b bad)
  (set b 0) (set bad 1) (set n 1000)
  (while n
    (interact (w) MMIOREAD 0x1002404C)
    (set n (sub n 1))
    (if (lts w 0) (then)
      (else (set bad 0) (set b (and w 255)) (set n 0)))))
(fn spi_xchg (b) (r bad)
  (set r 0)
  (call (bad) spi_put b)
  (if bad (then) (else (call (r bad) spi_get))))
(fn lan_read (a) (v bad)
  (set v 0)
  (interact () MMIOWRITE 0x10024018 2)
  (call (x bad) spi_xchg 3)
  (if bad (then) (else (call (x bad) spi_xchg (sru a 8))))
  (if bad (then) (else (call (x bad) spi_xchg (and a 255))))
  (set i 0)
  (while (ltu i 4)
    (if bad (then)
      (else (call (x bad) spi_xchg 0)
            (set v (or v (slu x (slu i 3))))))
    (set i (add i 1)))
  (interact () MMIOWRITE 0x10024018 0))
(fn lan_write (a v) (bad)
  (interact () MMIOWRITE 0x10024018 2)
  (call (x bad) spi_xchg 2)
  (if bad (then) (else (call (x bad) spi_xchg (sru a 8))))
  (if bad (then) (else (call (x bad) spi_xchg (and a 255))))
  (set i 0)
  (while (ltu i 4)
    (if bad (then)
      (else (call (x bad) spi_xchg (and (sru v (slu i 3)) 255))))
    (set i (add i 1)))
  (interact () MMIOWRITE 0x10024018 0))
(fn boot () (bad)
  (interact (v) MMIOREAD 0x10012008)
  (interact () MMIOWRITE 0x10012008 (or v 0x800000))
  (set bad 1) (set t 200)
  (while t
    (set t (sub t 1))
    (call (w f) lan_read 0x64)
    (if f (then (set t 0))
      (else (if (eq w 0x87654321) (then (set bad 0) (set t 0)) (else)))))
  (if bad (then) (else (call (bad) lan_write 0x74 1))))
(fn receive (p) (n bad)
  (call (n bad) lan_read 0x40)
  (if bad (then)
    (else
      (set n (and n 0xFFFF)) (set i 0)
      (while (ltu i n)
        (call (w bad) lan_read 0)
        (if bad (then (set n 0))
          (else
            (if (ltu i 1520) (then (store4 (add p i) w)) (else))
            (set i (add i 4))))))))
(fn handle (p n) ()
  (if (ltu n 43) (then) (else (if (ltu 1520 n) (then) (else
    (if (eq (load1 (add p 12)) 8) (then
      (if (eq (load1 (add p 13)) 0) (then
        (if (eq (load1 (add p 23)) 17) (then
          (interact (v) MMIOREAD 0x1001200C)
          (interact () MMIOWRITE 0x1001200C
            (or (and v 0xFF7FFFFF)
                (slu (and (load1 (add p 42)) 1) 23))))
        (else))) (else))) (else)))))))
(fn poll () (bad)
  (call (w bad) lan_read 0x7C)
  (if bad (then)
    (else (if w
      (then (stackalloc p 1520
        (call (n bad) receive p)
        (if bad (then) (else (call () handle p n)))))
      (else)))))
(fn main () (bad)
  (call (bad) boot)
  (while (eq bad 0) (call (x) poll)))
";
