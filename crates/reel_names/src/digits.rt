// Numbers of three digits.
ghost use Rattle.std.specs.Prelude.{◌≡◌, ◌<◌};
ghost use Rattle.reel_names.specs.Namers.{three_digits};

/// A number below 1,000 as three decimal digits.
pub fn three_digits(n: u32) -> [u8; 3]
    requires { n < 1000 }
    ensures { result ≡ three_digits n }
{
    [
        b'0' + (n / 100) as u8,
        b'0' + (n / 10 % 10) as u8,
        b'0' + (n % 10) as u8,
    ]
}
