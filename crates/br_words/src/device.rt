// The addresses at which devices are read and written.

ghost use Rattle.std.specs.Prelude.{◌≡◌};
ghost use Rattle.br_words.specs.Device.{is_device_word};

/// Whether a device is read or written at this address: a multiple of 4 from 0x10012000 up to
/// 0x10013000 (GPIO), from there up to 0x10014000 (UART0), or
/// from 0x10024000 up to 0x10025000 (SPI1).
pub fn device_word(a: u32) -> bool
    ensures { result ≡ is_device_word a }
{
    let gpio = 0x10012000 <= a && a < 0x10013000;
    let uart = 0x10013000 <= a && a < 0x10014000;
    let spi = 0x10024000 <= a && a < 0x10025000;
    a % 4 == 0 && (gpio || uart || spi)
}
