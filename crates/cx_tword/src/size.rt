ghost use Rattle.std.specs.Prelude.{◌≡◌, ◌^◌, min, option_map};
ghost use Rattle.cx_tword.specs.Words as spec;

use cx_cword::digits;

// Greater than each size of a word, so that all greater numbers are as good as it.
const TOO_BIG: u32 = 65536;

fn capped(value: u128) -> u32
    ensures { result ≡ min value (2 ^ 16) }
{
    if value < TOO_BIG as u128 {
        value as u32
    } else {
        TOO_BIG
    }
}

// The number that the text spells in base ten, if it is one or more digits and nothing else; of a
// number from 65536 on, 65536.
#[tactic(auto, using(std::proofs::lemmas::Bool::Decides::nat_tests), unfolding(crate::specs::Words::number_in))]
fn number_in(text: &[u8]) -> Option<u32>
    ensures { result ≡ option_map (λ k. min k (2 ^ 16)) (spec.number_in text.now) }
{
    let (value, rest) = digits(10, text);
    if 0 < text.len() && rest.len() == 0 {
        Some(capped(value))
    } else {
        None
    }
}

// The same of what follows the front, if the text begins with it.
#[tactic(auto, unfolding(crate::specs::Words::number_after))]
pub fn number_after(front: &[u8], text: &[u8]) -> Option<u32>
    ensures { result ≡ option_map (λ k. min k (2 ^ 16)) (spec.number_after front.now text.now) }
{
    if text.starts_with(front) {
        number_in(&text[front.len()..])
    } else {
        None
    }
}
