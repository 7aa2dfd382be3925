ghost use Rattle.std.specs.Prelude.{◌≡◌, ℕ, true, [], length};
ghost use Rattle.scenario.specs.Items.{right_count};
ghost use Rattle.scenario.specs.Shown.{shown};
ghost use Rattle.transcript.specs.Policies.{shared_policy};
ghost use Rattle.transcript.specs.Stages.{tabling, ruled};
ghost use Rattle.transcript.specs.Steps.{silent as in_silence, on_opening, on_rule, on_show, add_task, accepting, make_fixed, make_ceiling, arrive as arrives, run as runs_on, step};
ghost use Rattle.play.specs.Courses.{stage_of, result_of, Leads, started, TicksOn};

use super::course::{Course, Printed};
use super::fields::{amount, tick_list, ticks};
use super::outline::Outline;
use super::ruled::Ruled;
use super::stop::Stop;
use output::fault::Fault;
use runs::answer::Answer;
use scenario::lines::Line;
use tasks::task::{Factor, Task};
use tasks::units::{Shares, Ticks};

const SILENT: Printed = Printed {
    line: None,
    left: 0,
};

impl Course {
    // The S line.
    fn open(&mut self, outline: Outline) -> Result<Printed, Stop>
        requires { outline.tasks ≡ [] }
        ensures { Leads result (stage_of self.new) (λ n. on_opening n (in_silence (tabling outline.scale outline.total outline.factor [])) (stage_of self.old)) }
    {
        let Course::Opening = self else {
            return Err(Stop::OutOfPlace);
        };
        *self = Course::Table(outline);
        Ok(SILENT)
    }

    // A task.
    fn add(&mut self, task: Task) -> Result<Printed, Stop>
        ensures { Leads result (stage_of self.new) (λ n. add_task n task (stage_of self.old)) }
    {
        let Course::Table(outline) = self else {
            return Err(Stop::OutOfPlace);
        };
        outline.push(task);
        Ok(SILENT)
    }

    // The M line.
    fn share(&mut self) -> Result<Printed, Stop>
        ensures { Leads result (stage_of self.new) (λ n. accepting n (λ d. in_silence (ruled d (shared_policy d))) (stage_of self.old)) }
    {
        let Course::Table(outline) = self else {
            return Err(Stop::OutOfPlace);
        };
        let table = outline.accept()?;
        *self = Course::Rule(Ruled::shared(table));
        Ok(SILENT)
    }

    // The F line.
    fn fix(&mut self, budgets: &[Ticks]) -> Result<Printed, Stop>
        ensures { Leads result (stage_of self.new) (λ n. accepting n (make_fixed n budgets.now) (stage_of self.old)) }
    {
        let Course::Table(outline) = self else {
            return Err(Stop::OutOfPlace);
        };
        let table = outline.accept()?;
        let ruled = Ruled::fixed(table, budgets)?;
        *self = Course::Rule(ruled);
        Ok(SILENT)
    }

    // The C line.
    fn cap(&mut self, ceilings: &[Ticks]) -> Result<Printed, Stop>
        ensures { Leads result (stage_of self.new) (λ n. on_rule n (make_ceiling n ceilings.now) (stage_of self.old)) }
    {
        let Course::Rule(ruled) = self else {
            return Err(Stop::OutOfPlace);
        };
        let show = ruled.start_under(ceilings)?;
        *self = Course::Work(show);
        Ok(SILENT)
    }

    // The first event makes the dispatcher.
    fn start(&mut self)
        ensures { stage_of self.new ≡ started (stage_of self.old) }
    {
        if let Course::Rule(ruled) = self {
            *self = Course::Work(ruled.start());
        }
    }

    // An A line.
    fn arrive(&mut self, task: u32, need: Ticks) -> Result<Printed, Stop>
        ensures { Leads result (stage_of self.new) (λ n. on_show n (arrives task need.0) (stage_of self.old)) }
    {
        self.start();
        let Course::Work(show) = self else {
            return Err(Stop::OutOfPlace);
        };
        let line = show.arrive(task, need);
        Ok(Printed {
            line: Some(line),
            left: 0,
        })
    }

    // An R line.
    fn run(&mut self, left: u32) -> Result<Printed, Stop>
        ensures { Leads result (stage_of self.new) (λ n. on_show n (runs_on left) (stage_of self.old)) }
    {
        self.start();
        let Course::Work(_) = self else {
            return Err(Stop::OutOfPlace);
        };
        Ok(Printed { line: None, left })
    }

    // Runs a tick, if a dispatcher is at work and takes it.
    pub(crate) fn tick(&mut self) -> Option<Answer>
        ensures { TicksOn result (stage_of self.old) (stage_of self.new) }
    {
        let Course::Work(show) = self else {
            return None;
        };
        show.tick().ok()
    }

    // What a line does, by its kind.
    fn step(&mut self, line: Line) -> Result<Printed, Stop>
        requires { right_count (shown line).kind (length (shown line).numbers) ≡ true }
        ensures { Leads result (stage_of self.new) (λ n. step n (shown line.entry) (stage_of self.old)) }
    {
        match line {
            Line::Scale { scale, total, p, q } => {
                let factor = Factor {
                    p: amount(p),
                    q: amount(q),
                };
                let scale = Shares(u64::from(amount(scale)));
                let total = Shares(u64::from(amount(total)));
                self.open(Outline::new(scale, total, factor))
            }
            Line::High { period, worst } => self.add(Task::high(ticks(period), ticks(worst))),
            Line::Low {
                period,
                worst,
                assured,
            } => self.add(Task::low(ticks(period), ticks(worst), ticks(assured))),
            Line::Shared => self.share(),
            Line::Fixed(fields) => self.fix(tick_list(fields).as_slice()),
            Line::Ceiling(fields) => self.cap(tick_list(fields).as_slice()),
            Line::Arrival { task, need } => self.arrive(amount(task), ticks(need)),
            Line::Run { ticks } => self.run(amount(ticks)),
        }
    }

    // Carries out a line, which has the given number.
    pub(crate) fn carry_out(&mut self, number: u32, line: Line) -> Result<Printed, Fault>
        requires { right_count (shown line).kind (length (shown line).numbers) ≡ true }
        ensures { result_of result (stage_of self.new) ≡ step number (shown line.entry) (stage_of self.old) }
    {
        self.step(line).map_err(|stop| stop.at(number))
    }
}
