ghost use Rattle.std.specs.Prelude.{◌≡◌, IfOk};

use cx_base::{List, NoMemory};
use cx_term::Term;

/// What some bytes hold.
#[derive(Drop)]
pub enum CellKind {
    /// Any bytes.
    Any,
    /// The number of this sign that `value` comes to.
    Val {
        signed: bool,
        value: Term,
    },
    /// The address `off` bytes past the base of a region that has the type at place `name`, with
    /// these arguments. With `null` it is such an address or 0.
    Ptr {
        name: u32,
        args: List<Term>,
        off: Term,
        null: bool,
    },
}

/// Bytes of a form: `size` of them, from the offset `at` on, which is counted from the first byte
/// of the head, of the branch or of the element that the cell stands in.
#[derive(Drop)]
pub struct FlatCell {
    pub at: u32,
    pub size: u32,
    pub kind: CellKind,
}

/// The same terms once more.
fn copy_terms(terms: &List<Term>) -> Result<List<Term>, NoMemory>
    ensures { IfOk result (λ copy. copy ≡ terms.now) }
{
    let mut copy = List::new(terms.alloc());
    for t in terms.as_slice() {
        copy.push(t.copy())?;
    }
    Ok(copy)
}

impl CellKind {
    /// The same kind once more.
    pub fn copy(&self) -> Result<CellKind, NoMemory>
        ensures { IfOk result (λ copy. copy ≡ self.now) }
    {
        match self {
            CellKind::Any => Ok(CellKind::Any),
            CellKind::Val { signed, value } => Ok(CellKind::Val {
                signed: *signed,
                value: value.copy(),
            }),
            CellKind::Ptr {
                name,
                args,
                off,
                null,
            } => {
                let args = copy_terms(args)?;
                Ok(CellKind::Ptr {
                    name: *name,
                    args,
                    off: off.copy(),
                    null: *null,
                })
            }
        }
    }
}

impl FlatCell {
    /// The same cell once more.
    pub fn copy(&self) -> Result<FlatCell, NoMemory>
        ensures { IfOk result (λ copy. copy ≡ self.now) }
    {
        let kind = self.kind.copy()?;
        Ok(FlatCell {
            at: self.at,
            size: self.size,
            kind,
        })
    }
}
