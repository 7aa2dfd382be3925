ghost use Rattle.std.specs.Prelude.{◌^◌};
ghost use Rattle.table.specs.Tables.{draft_of};
ghost use Rattle.dispatch.specs.Cores.{Owned, ArrivedBy};

use runs::answer::{Job, Mode};
use table::table::Table;

// The candidates among the jobs, by the deadlines of a mode.
#[derive(Drop)]
pub(crate) struct Rivals<'t, 'j> {
    pub(crate) table: &'t Table,
    pub(crate) jobs: &'j [Option<Job>; 32],
    pub(crate) mode: Mode,
    ghost owned: { Owned (draft_of table.now).count jobs.now },
    ghost arrived: { ArrivedBy (2 ^ 40) jobs.now },
}
