ghost use Rattle.std.specs.Prelude.{◌≡◌, ◌*◌, ◌≤◌, All, IsTrue, length};
ghost use Rattle.std.specs.Char.{is_ascii_digit};
ghost use Rattle.std.specs.List.{list_all};
ghost use Rattle.wagon_number.specs.Digits.{number_in, digit_sum, check_digit_of, shown_digits};

// What each digit adds to the sum where it is multiplied by 2: the digits of its double.
static DOUBLED: [u8; 10] = [0, 2, 4, 6, 8, 1, 3, 5, 7, 9];

/// The check digit that goes behind eleven digits: what the digits of their products with 2 and 1
/// in turn lack to a multiple of ten.
pub fn check_digit(digits: [u8; 11]) -> u8
    requires { All (λ d. d ≤ 9) digits }
    ensures { result ≡ check_digit_of digits }
{
    digit_behind(&digits)
}

/// The check digit that goes behind eleven digits of a slice.
pub(crate) fn digit_behind(digits: &[u8]) -> u8
    requires digits { All (λ d. d ≤ 9) digits.now }
    requires eleven { length digits.now ≡ 11 }
    ensures { result ≡ check_digit_of digits.now }
{
    let doubled = doubled(digits[0])
        + doubled(digits[2])
        + doubled(digits[4])
        + doubled(digits[6])
        + doubled(digits[8])
        + doubled(digits[10]);
    let others = digits[1] + digits[3] + digits[5] + digits[7] + digits[9];
    let sum = doubled + others;
    (10 - sum % 10) % 10
}

// What a digit adds to the sum where it is multiplied by 2.
fn doubled(digit: u8) -> u8
    requires { digit ≤ 9 }
    ensures value { result ≡ digit_sum (2 * digit) }
    ensures bound { result ≤ 9 }
{
    DOUBLED[usize::from(digit)]
}

/// The number that twelve digits show.
pub(crate) fn number_shown(digits: [u8; 12]) -> u64
    requires { All (λ d. d ≤ 9) digits }
    ensures { result ≡ number_in digits }
{
    let mut number = 0;
    for digit in digits {
        number = 10 * number + u64::from(digit);
    }
    number
}

/// Whether each letter is a digit of ASCII.
pub(crate) fn are_digits(letters: &[u8]) -> bool
    ensures { result ≡ list_all is_ascii_digit letters.now }
{
    let mut all = true;
    for letter in letters {
        all &= letter.is_ascii_digit();
    }
    all
}

/// The digits that letters show.
pub(crate) fn digits_shown(letters: [u8; 12]) -> [u8; 12]
    requires { IsTrue (list_all is_ascii_digit letters) }
    ensures { result ≡ shown_digits letters }
{
    let mut digits = letters;
    for digit in digits.iter_mut() {
        *digit -= b'0';
    }
    digits
}
