ghost use Rattle.std.specs.Prelude.{◌≡◌};
ghost use Rattle.cx_ctree.specs.Conversions as spec;

use cx_base::CInt;

/// `int`
#[tactic(auto, using(cx_ctree::proofs::Numbers::number_same))]
pub fn signed_int() -> CInt
    ensures { result ≡ spec.signed_int }
{
    CInt {
        size: 4,
        signed: true,
    }
}

/// `long`
#[tactic(auto, using(cx_ctree::proofs::Numbers::number_same))]
pub fn signed_long() -> CInt
    ensures { result ≡ spec.signed_long }
{
    CInt {
        size: 8,
        signed: true,
    }
}

/// `unsigned long`
#[tactic(auto, using(cx_ctree::proofs::Numbers::number_same))]
pub fn unsigned_long() -> CInt
    ensures { result ≡ spec.unsigned_long }
{
    CInt {
        size: 8,
        signed: false,
    }
}

/// The type that the integer promotions give (C11 6.3.1.1).
#[tactic(auto, using(std::proofs::lemmas::Bool::Decides::nat_tests))]
pub fn promoted(t: CInt) -> CInt
    ensures { result ≡ spec.promoted t }
{
    if t.size < 4 { signed_int() } else { t }
}

#[tactic(auto, using(std::proofs::lemmas::Bool::Decides::nat_tests))]
fn wider(t: CInt, u: CInt) -> CInt
    ensures { result ≡ spec.wider t u }
{
    if t.size < u.size {
        u
    } else if u.size < t.size {
        t
    } else if t.signed {
        u
    } else {
        t
    }
}

/// The type of the usual arithmetic conversions (C11 6.3.1.8).
pub fn common(t: CInt, u: CInt) -> CInt
    ensures { result ≡ spec.common t u }
{
    wider(promoted(t), promoted(u))
}
