ghost use Rattle.std.specs.Prelude.{◌≡◌, ◌<◌, ◌↔◌, IsTrue, IfOk};
ghost use Rattle.cx_ctree.specs.Path.{type_path};
ghost use Rattle.cx_ctree.specs.Types.{type_tree};

use cx_base::{CInt, List, NoMemory};

/// A type of C.
#[derive(Debug, Drop)]
pub enum CType {
    Void,
    /// An integer type. Every enumeration type is `int`.
    Int(CInt),
    /// A pointer to this type.
    Ptr(Box<CType>),
    /// An array of so many elements of this type.
    Array(Box<CType>, u32),
    /// A struct or union, by its place in the tags of its unit.
    Tag(u32),
}

impl CType {
    /// The same type once more.
    pub fn copy(&self) -> Result<CType, NoMemory>
        ensures { IfOk result (λ copy. type_tree copy ≡ type_tree self.now) }
    {
        match self {
            CType::Void => Ok(CType::Void),
            CType::Int(number) => Ok(CType::Int(*number)),
            CType::Ptr(pointee) => {
                let copy = pointee.copy()?;
                Ok(CType::Ptr(Box::new(*Box::allocator(pointee), copy)?))
            }
            CType::Array(element, count) => {
                let copy = element.copy()?;
                Ok(CType::Array(Box::new(*Box::allocator(element), copy)?, *count))
            }
            CType::Tag(tag) => Ok(CType::Tag(*tag)),
        }
    }

    /// Whether its longest path has more than so many nodes.
    pub fn exceeds(&self, nodes: u32) -> bool
        ensures { IsTrue result ↔ (nodes < type_path (type_tree self.now)) }
    {
        match self {
            CType::Void | CType::Int(_) | CType::Tag(_) => nodes == 0,
            CType::Ptr(inner) | CType::Array(inner, _) => nodes == 0 || inner.exceeds(nodes - 1),
        }
    }

    /// Whether both are the same type. Arrays of different numbers of elements differ.
    pub fn same(&self, other: &CType) -> bool
        ensures { IsTrue result ↔ (type_tree self.now ≡ type_tree other.now) }
    {
        match self {
            CType::Void => match other {
                CType::Void => true,
                CType::Int(_) | CType::Ptr(_) | CType::Array(_, _) | CType::Tag(_) => false,
            },
            CType::Int(number) => match other {
                CType::Int(also) => same_number(*number, *also),
                CType::Void | CType::Ptr(_) | CType::Array(_, _) | CType::Tag(_) => false,
            },
            CType::Ptr(pointee) => match other {
                CType::Ptr(also) => pointee.same(also),
                CType::Void | CType::Int(_) | CType::Array(_, _) | CType::Tag(_) => false,
            },
            CType::Array(element, count) => match other {
                CType::Array(also, times) => *count == *times && element.same(also),
                CType::Void | CType::Int(_) | CType::Ptr(_) | CType::Tag(_) => false,
            },
            CType::Tag(tag) => match other {
                CType::Tag(also) => *tag == *also,
                CType::Void | CType::Int(_) | CType::Ptr(_) | CType::Array(_, _) => false,
            },
        }
    }
}

#[tactic(auto, using(crate::proofs::Numbers::number_same))]
fn same_number(a: CInt, b: CInt) -> bool
    ensures { IsTrue result ↔ (a ≡ b) }
{
    a == b
}
