//! Serials (RFC 1982 section 3, with 32 bits).

ghost use Rattle.std.specs.Prelude.{◌≡◌, ◌↔◌, ◌<◌, ◌^◌, IsTrue};
ghost use Rattle.zone_core.specs.Serials.{serial_sum, IsLess, is_less};

/// Whether a serial is less than another (RFC 1982 section 3.2). Two that are 2,147,483,648 apart are neither less nor
/// greater.
pub fn serial_less(first: u32, second: u32) -> bool
    ensures test { IsTrue result ↔ IsLess first second }
    ensures value { result ≡ is_less first second }
{
    let ahead = second.wrapping_sub(first);
    0 < ahead && ahead < 0x8000_0000
}

/// The sum of a serial and a number up to 2,147,483,647, which wraps (RFC 1982 section 3.1).
pub fn serial_add(serial: u32, number: u32) -> u32
    requires { number < 2 ^ 31 }
    ensures { result ≡ serial_sum serial number }
{
    serial.wrapping_add(number)
}
