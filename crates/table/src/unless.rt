ghost use Rattle.std.specs.Prelude.{◌≡◌};
ghost use Rattle.table.specs.Firsts.{refusal, unless};

use tasks::refusal::TableRefusal;

// The refusal where a test fails.
pub(crate) fn refuse_unless(passes: bool, reason: TableRefusal) -> Result<(), TableRefusal>
    ensures { refusal result ≡ unless passes reason }
{
    passes.then_some(()).ok_or(reason)
}
