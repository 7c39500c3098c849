ghost use Rattle.std.specs.Prelude.{◌≡◌};
ghost use Rattle.cx_sstmt.specs.Stmts as spec;
ghost use Rattle.cx_sstmt.specs.Around.{around_view};

use cx_ctree::CType;

/// What stands around a statement.
#[derive(Clone, Copy)]
pub struct Around<'a> {
    /// The result of its function.
    pub result: &'a CType,
    /// A loop is around it.
    pub looped: bool,
    /// A loop or a switch is around it.
    pub breakable: bool,
}

pub fn in_loop(around: Around<'_>) -> Around<'_>
    ensures { around_view result ≡ spec.in_loop (around_view around.entry) }
{
    Around {
        result: around.result,
        looped: true,
        breakable: true,
    }
}

pub fn in_switch(around: Around<'_>) -> Around<'_>
    ensures { around_view result ≡ spec.in_switch (around_view around.entry) }
{
    Around {
        result: around.result,
        looped: around.looped,
        breakable: true,
    }
}
