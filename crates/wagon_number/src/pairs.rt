//! The letters of numbers, two at a time.
ghost use Rattle.std.specs.Prelude.{◌≡◌, ◌<◌, ◌^◌, map};
ghost use Rattle.std.specs.Char.{digit_char};
ghost use Rattle.wagon_number.specs.Digits.{last_digits, text_of};

// The two letters of each number below 100, one number after another.
static PAIRS: [u8; 200] = *b"\
    0001020304050607080910111213141516171819\
    2021222324252627282930313233343536373839\
    4041424344454647484950515253545556575859\
    6061626364656667686970717273747576777879\
    8081828384858687888990919293949596979899";

/// The letters of a number of at most twelve digits, the first first.
pub(crate) fn twelve_letters(number: u64) -> [u8; 12]
    requires { number < 10 ^ 12 }
    ensures { result ≡ text_of number }
{
    let front = six_letters((number / 1_000_000) as u32);
    let back = six_letters((number % 1_000_000) as u32);
    [
        front[0], front[1], front[2], front[3], front[4], front[5], back[0], back[1], back[2],
        back[3], back[4], back[5],
    ]
}

// The letters of a number of at most six digits.
fn six_letters(number: u32) -> [u8; 6]
    requires { number < 10 ^ 6 }
    ensures { result ≡ map digit_char (last_digits 6 number) }
{
    let first = two_letters(number / 10_000);
    let second = two_letters(number / 100 % 100);
    let third = two_letters(number % 100);
    [first[0], first[1], second[0], second[1], third[0], third[1]]
}

// The letters of a number of at most two digits.
fn two_letters(number: u32) -> [u8; 2]
    requires { number < 100 }
    ensures { result ≡ map digit_char (last_digits 2 number) }
{
    let place = 2 * number as usize;
    [PAIRS[place], PAIRS[place + 1]]
}
