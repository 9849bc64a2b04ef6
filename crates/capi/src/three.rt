// An answer of three numbers: a reply's number, its second and its third.
ghost use Rattle.std.specs.Prelude.{[], ◌∷◌, ◌≡◌, length};
ghost use Rattle.capi.specs.Numbers.{three_length};

// The three numbers are these; the result is the first.
pub fn put_three(words: &mut [u64], number: u32, second: u64, third: u64) -> u32
    requires { length words.old ≡ three_length }
    ensures { (result ≡ number) × (words.new ≡ (number ∷ second ∷ third ∷ [])) }
{
    words[0] = u64::from(number);
    words[1] = second;
    words[2] = third;
    number
}
