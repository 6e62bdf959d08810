// The run loop on the lent parts of a record whose header is sound, without its names (01, 'One step', its last paragraph).
ghost use Rattle.std.specs.Prelude.{◌≡◌, cond, ◌+◌, ◌-◌, ◌≤◌, ◌<◌, ltb, max};
ghost use Rattle.answer.specs.Numbers.{told, gives};
ghost use Rattle.refusal.specs.Checks as check;
ghost use Rattle.lent.specs.Parts.{unnamed};
ghost use Rattle.lent.specs.Given.{given, given_by};
ghost use Rattle.steps.specs.Inner.Ready.{Ready, plays_of, Plays, Scanned, ran_of};

use crate::Ran;
use crate::setting::Setting;
use crate::stepping::{fetch, step_once};
use answer::{Answer, Error};
use machine::Processes;
use offset::ahead;
use refusal::refusal;
use scan::scan;
use types::opcode::NOP;
use word::opcode;

// What a run gives, from the steps taken before it.
fn ran(answer: Answer, writes: u64, before: u32, processes: &Processes) -> Ran
    requires { before ≤ processes.now.steps }
    ensures { result ≡ ran_of answer writes before processes.now.steps }
{
    let steps = (processes.steps - before) as u64;
    Ran {
        answer,
        writes,
        steps,
    }
}

// Steps while steps taken are below a ceiling, up to the first answer not 0, where each can be refused by 10 only. The bound is compared with the steps taken, which a step raises: no range counts them.
fn play(
    core: &mut [u64],
    queue: &mut [u64],
    setting: Setting,
    processes: &mut Processes,
    until: u64,
) -> Ran
    requires { Ready (unnamed core.old queue.old setting.rules setting.held processes.old) × Plays until (unnamed core.old queue.old setting.rules setting.held processes.old) }
    ensures counted { processes.new.steps ≤ 4294967295 }
    ensures plays { given (told result.answer) result.writes result.steps (unnamed core.new queue.new setting.rules setting.held processes.new)
        ≡ given_by (plays_of (until - processes.old.steps) (unnamed core.old queue.old setting.rules setting.held processes.old)) }
{
    let before = processes.steps;
    let ring = processes.ring;
    let mut tail = ahead(ring.head, ring.length, queue.len() as u32);
    let mut writes: u64 = 0;
    while (processes.steps as u64) < until {
        let f = fetch(core, queue, processes.ring.head);
        if opcode(f.cell) > NOP {
            return ran(Err(Error::PrivateMemory), writes, before, processes);
        }
        let s = step_once(core, queue, setting.rules, processes, tail, f);
        tail = s.tail;
        writes += s.writes;
        if s.answer.is_err() {
            return ran(s.answer, writes, before, processes);
        }
    }
    ran(Ok(()), writes, before, processes)
}

// The refusal of the next step: 0, and not asked, where the record is trusted for it.
fn asked(
    core: &[u64],
    queue: &[u64],
    setting: Setting,
    processes: &Processes,
    trusted: u64,
) -> Answer
    ensures { told result ≡ cond (ltb processes.now.steps trusted) (gives 0 0) (check.refused (unnamed core.now queue.now setting.rules setting.held processes.now)) }
{
    if (processes.steps as u64) < trusted {
        return Ok(());
    }
    refusal(core, queue, setting.rules, setting.held, processes)
}

// The steps that the record is trusted for; else the next step, its refusal asked first.
fn ask(
    core: &mut [u64],
    queue: &mut [u64],
    setting: Setting,
    processes: &mut Processes,
    trusted: u64,
) -> Ran
    requires { Ready (unnamed core.old queue.old setting.rules setting.held processes.old)
        × (processes.old.steps < trusted → Scanned trusted (unnamed core.old queue.old setting.rules setting.held processes.old)) }
    ensures counted { processes.new.steps ≤ 4294967295 }
    ensures plays { given (told result.answer) result.writes result.steps (unnamed core.new queue.new setting.rules setting.held processes.new)
        ≡ given_by (plays_of (max trusted (processes.old.steps + 1) - processes.old.steps) (unnamed core.old queue.old setting.rules setting.held processes.old)) }
{
    let answer = asked(core, queue, setting, processes, trusted);
    if answer.is_err() {
        return ran(answer, 0, processes.steps, processes);
    }
    let until = trusted.max(processes.steps as u64 + 1);
    play(core, queue, setting, processes, until)
}

// Up to how many steps taken the record is trusted: the ceiling where a scan of the whole record pays and the record passes it, else 0. Called once a run, and so called it stays: written into its caller it takes registers of the loop, and a step of a run takes 2 to 4 % more instructions, an outer step 1 to 4 % fewer.
#[inline(never)]
fn trusted_until(
    core: &[u64],
    queue: &[u64],
    setting: Setting,
    processes: &Processes,
    ceiling: u64,
) -> u64
    ensures { processes.now.steps < result → (result ≡ ceiling) × Scanned ceiling (unnamed core.now queue.now setting.rules setting.held processes.now) }
{
    let steps = ceiling.saturating_sub(processes.steps as u64);
    let least = core.len() as u64 / 16 + processes.ring.length as u64 / 16;
    if steps == 0 || steps < least || processes.ring.length == 0 {
        return 0;
    }
    if scan(core, queue, setting.rules, setting.held, processes, steps) {
        return ceiling;
    }
    0
}

// Steps while steps taken are below the ceiling, up to the first answer not 0. A call raises the steps taken by any number: no range counts them. `play`, which it comes to, is of steps of which the refusal was asked before, or need not be.
pub(crate) fn run_loop(
    core: &mut [u64],
    queue: &mut [u64],
    setting: Setting,
    processes: &mut Processes,
    ceiling: u64,
) -> Ran
    requires { Ready (unnamed core.old queue.old setting.rules setting.held processes.old) }
    ensures { given (told result.answer) result.writes result.steps (unnamed core.new queue.new setting.rules setting.held processes.new)
        ≡ given_by (plays_of (ceiling - processes.old.steps) (unnamed core.old queue.old setting.rules setting.held processes.old)) }
{
    let trusted = trusted_until(core, queue, setting, processes, ceiling);
    let before = processes.steps;
    let mut writes: u64 = 0;
    while (processes.steps as u64) < ceiling {
        let s = ask(core, queue, setting, processes, trusted);
        writes += s.writes;
        if s.answer.is_err() {
            return ran(s.answer, writes, before, processes);
        }
    }
    ran(Ok(()), writes, before, processes)
}
