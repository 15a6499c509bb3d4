//! The machine: its engine, its programs, the orders that are left, and a recorder of what it did.

ghost use Rattle.std.specs.Prelude.{◌≡◌, ◌↔◌, ◌≤◌, ℕ, [], length, OnOk, OnErr, IfOk, IfSome, Err, nat_le};
ghost use Rattle.m3_base.specs.declared.event.Event.{Event as EventValue};
ghost use Rattle.m3_base.specs.Calls.JournalCalls.{all_calls};
ghost use Rattle.m3_base.specs.Ideal.Opening.{opening};
ghost use Rattle.m3_base.specs.Journal.Audit.{audit_lines};
ghost use Rattle.m3_base.specs.Journal.Entry.{IsRun, state_after_entries};
ghost use Rattle.m3_base.specs.Journal.Replies.{printed_replies, ideal_replies, steps_in};
ghost use Rattle.m3_base.specs.Lists.EachElement.{Each};
ghost use Rattle.m3_base.specs.Placement.Driver.{next_event};
ghost use Rattle.m3_base.specs.Placement.Opening.{placement_at_opening};
ghost use Rattle.m3_base.specs.Setup.Rules.{IsValid};
ghost use Rattle.m3_laws.specs.JournalLaws.{AfterEach, KeepsLaws};
ghost use Rattle.m3_model.specs.Events.{IsOfSetup, IsWithin, SuitsPrograms};
ghost use Rattle.m3_model.specs.SetupOpening.{opened_by_setup, opened_site};
ghost use Rattle.m3_trace.specs.Invariant.{PlacementRun};
ghost use Rattle.m3_trace.specs.ProgramEnds.{EndsLast};
ghost use Rattle.m3_engine.specs.EngineView.{CanMake, Makes};
ghost use Rattle.m3_machine.specs.EngineTurns.{AreHeard, AsksOne, AreKept};
ghost use Rattle.m3_machine.specs.EventNames.{NamesActs};
ghost use Rattle.m3_machine.specs.MachineStep.{IsStep, IsDrivenOn, AutoEnds};
ghost use Rattle.m3_machine.specs.MachineView.{ideal, placement};
ghost use Rattle.m3_machine.specs.ProgramCalls.{AreCalled, HasPrograms, meanings_of};
ghost use Rattle.m3_machine.specs.ProgramTable.{program_table};
ghost use Rattle.m3_machine.specs.declared.refusal.StepRefusal.{StepRefusal};

use crate::audit::{credit_lines, flights, tile_lines};
use crate::orders::{Orders, is_order};
use crate::programs::program_table;
use crate::recorder::Recorder;
use crate::refusal::StepRefusal;
use m3_base::event::{Event, Outcome};
use m3_base::ids::ActId;
use m3_base::journal::{Audit, AuditLine};
use m3_base::order::Order;
use m3_base::program::Program;
use m3_base::setup::Setup;
use m3_engine::engine::Engine;
use std::alloc::{AllocError, Global};
use std::marker::Model;
use std::snapshot::Snapshot;

/// The most entries that a journal has.
pub const MOST_ENTRIES: u32 = 2_097_152;

/// A machine of tiles with the programs of its activities, the orders that are left, and a recorder of what it did.
/// Contracts see its setup, the machine as plain data, the entries so far, the orders that are left, and the programs: as
/// they were at opening, and what they mean now. The entries are a run of the ideal machine from the setup's opening, to
/// the state and the placement that it stands for, in which each program was called as its own relation allows.
#[derive(Drop)]
pub struct Machine<P: Program, R: Recorder> {
    engine: Engine,
    recorder: R,
    /// How many entries were recorded.
    count: u32,
    orders: Orders,
    /// By the numbers of their activities.
    programs: Vec<Option<P>>,
    /// As they were at opening; it takes no memory.
    initial: Snapshot<Vec<Option<P>>>,
}

impl<P: Program, R: Recorder> Model for Machine<P, R> {
    ghost use Rattle.m3_machine.specs.MachineView.{MachineValue};

    ghost Value = { MachineValue P };

    ghost use Rattle.m3_machine.specs.MachineView.{HasBounds};
    ghost use Rattle.m3_machine.specs.ProgramCalls.{meanings_of};

    ghost view = { λ m. record {
      setup = R.setup m.recorder;
      machine = m.engine.machine;
      entries = R.entries m.recorder;
      left = m.orders;
      initial = m.initial.value.items;
      meanings = meanings_of P.meaning m.programs.items;
    } };

    ghost invariant = { λ m. HasBounds P.meaning P.moves (R.setup m.recorder) (R.entries m.recorder) m.count m.engine
        m.orders m.initial.value.items m.programs.items };
}

/// The engine makes an event, by the activity's program where it is a turn.
fn make<P: Program>(
    alloc: Global,
    engine: &mut Engine,
    programs: &mut Vec<Option<P>>,
    event: Event,
) -> Result<Outcome, AllocError>
    requires declared { IsOfSetup engine.old.site event }
    requires suits { SuitsPrograms engine.old.site event }
    requires able { CanMake engine.old }
    requires heard { AreHeard engine.old }
    requires places { length programs.old.items ≡ 64 }
    requires there { HasPrograms engine.old.site programs.old.items }
    ensures ok { IfOk result (λ o. Makes engine.old event o engine.new) }
    ensures within { OnOk result (IsWithin event) }
    ensures asked { IfOk result (λ o. AsksOne P.moves P.meaning engine.old event o programs.old.items
        programs.new.items) }
    ensures err { OnErr result (engine.new ≡ engine.old) }
    ensures kept { OnErr result (AreKept P.moves P.meaning programs.old.items programs.new.items) }
{
    match event {
        Event::Turn(act) => match &mut programs[usize::from(act.number())] {
            Some(program) => engine.turn(alloc, act, program),
            None => unreachable!(),
        },
        event => engine.step(alloc, event),
    }
}

impl<P: Program + Drop, R: Recorder + Drop> Machine<P, R> {
    /// The machine that a setup opens, with no entry made: it stands for the setup's opening and the opening's placement.
    /// Each activity that the setup gives a program has one of `programs`, the last that is given for it; all of `orders`
    /// are left.
    pub fn open(
        alloc: Global,
        setup: Setup,
        programs: Vec<(ActId, P)>,
        orders: Vec<Order>,
    ) -> Result<Machine<P, R>, AllocError>
        requires programs { HasPrograms (opened_site setup) (program_table programs.items) }
        requires orders { Each (λ o. NamesActs setup (EventValue.Order o)) orders.items }
        ensures setup { IfOk result (λ m. m.setup ≡ setup) }
        ensures valid { IfOk result (λ m. IsValid m.setup) }
        ensures machine { IfOk result (λ m. m.machine ≡ opened_by_setup setup) }
        ensures entries { IfOk result (λ m. m.entries ≡ []) }
        ensures ideal { IfOk result (λ m. ideal m ≡ opening setup.memory setup.lines) }
        ensures placement { IfOk result (λ m. placement m ≡ placement_at_opening setup.lines) }
        ensures left { IfOk result (λ m. m.left ≡ orders.items) }
        ensures programs { IfOk result (λ m. m.initial ≡ program_table programs.items) }
        ensures meanings { IfOk result (λ m. m.meanings ≡ meanings_of P.meaning m.initial) }
    {
        let engine = Engine::open(alloc, &setup)?;
        let recorder = R::new(alloc, setup)?;
        let programs = program_table(alloc, programs)?;
        let initial = Snapshot::of(&programs);
        let orders = Orders::new(orders);
        Ok(Machine {
            engine,
            recorder,
            count: 0,
            orders,
            programs,
            initial,
        })
    }

    /// Makes one event, and adds its entry, which says what the ideal machine's steps say; the ideal state and the
    /// placement move by it, and each program by its calls in it. An order takes the first that is left. `Spent` comes
    /// exactly where the journal has as many entries as it may have. After a refusal the machine is as before.
    pub fn step(&mut self, alloc: Global, event: Event) -> Result<(), StepRefusal>
        requires names { NamesActs self.old.setup event }
        requires suits { SuitsPrograms (opened_site self.old.setup) event }
        ensures ok { OnOk result (IsStep P.moves self.old event self.new) }
        ensures err { OnErr result (self.new ≡ self.old) }
        ensures spent { result ≡ Err StepRefusal.Spent ↔ length self.old.entries ≡ 2097152 }
    {
        if self.count == MOST_ENTRIES {
            return Err(StepRefusal::Spent);
        }
        self.recorder.note(alloc, &event)?;
        let spends = is_order(&event);
        let outcome = make(alloc, &mut self.engine, &mut self.programs, event)?;
        self.recorder.add(outcome);
        self.count += 1;
        self.orders.spend(spends);
        Ok(())
    }

    /// Whether it has at least so many entries.
    fn has_entries(&self, count: u32) -> bool
        ensures { result ≡ nat_le count (length self.now.entries) }
    {
        count <= self.count
    }

    /// Makes the driver's events until the driver has no more to do or there are at least `budget` entries, and answers
    /// whether the driver has no more to do. After a refusal the entries that were made stand.
    pub fn auto(&mut self, alloc: Global, budget: u32) -> Result<bool, StepRefusal>
        ensures driven { IsDrivenOn budget self.old self.new }
        ensures ends { IfOk result (λ quiet. AutoEnds budget quiet self.new) }
        ensures spent { result ≡ Err StepRefusal.Spent → length self.new.entries ≡ 2097152 }
    {
        while let Some(event) = self.next() {
            if self.has_entries(budget) {
                return Ok(false);
            }
            self.step(alloc, event)?;
        }
        Ok(true)
    }

    /// The event that the driver makes next, where there is one: the take with the least receiving tile, then the least
    /// sending tile, among links that aren't empty; then the tend of the least activity that is Resting or Coming and for
    /// which something is held; then a close, where a grant is due; then the first order that is left; then the switch of
    /// the least tile that wants one; then the turn of the least tile's current activity, where that turn isn't idle. The
    /// machine can make it.
    pub fn next(&self) -> Option<Event>
        ensures event { result ≡ next_event (ideal self.now) (placement self.now) self.now.left }
        ensures names { IfSome result (NamesActs self.now.setup) }
        ensures suits { IfSome result (SuitsPrograms (opened_site self.now.setup)) }
    {
        self.engine.next(self.orders.left())
    }

    /// Whoever was told the entries made so far. They are a run of the ideal machine from the setup's opening, with just
    /// what its steps say, to the state that the machine stands for; and they move its placement from the opening's. After
    /// every entry the laws hold of credits, order, granted bytes, refusals and revokes. The calls of each program in them
    /// lead, by its own relation, from what it meant at opening to what it means now, and its end is the last of them.
    pub fn recorder(&self) -> &R
        ensures setup { R.setup result.now ≡ self.now.setup }
        ensures entries { R.entries result.now ≡ self.now.entries }
        ensures valid { IsValid self.now.setup }
        ensures few { length self.now.entries ≤ 2097152 }
        ensures run { IsRun (opening self.now.setup.memory self.now.setup.lines) self.now.entries }
        ensures reaches { state_after_entries (opening self.now.setup.memory self.now.setup.lines)
            self.now.entries ≡ ideal self.now }
        ensures replies { (a : ℕ) → printed_replies a
            (opening self.now.setup.memory self.now.setup.lines) self.now.entries ≡
            ideal_replies a (opening self.now.setup.memory self.now.setup.lines)
            (steps_in self.now.entries) }
        ensures places { PlacementRun (opening self.now.setup.memory self.now.setup.lines)
            (placement_at_opening self.now.setup.lines) self.now.entries (placement self.now) }
        ensures laws { AfterEach (KeepsLaws (opening self.now.setup.memory self.now.setup.lines)) self.now.entries }
        ensures there { HasPrograms (opened_site self.now.setup) self.now.initial }
        ensures ends { (a : ℕ) → EndsLast
            (all_calls a (opening self.now.setup.memory self.now.setup.lines) self.now.entries) }
        ensures reach { AreCalled P.moves self.now.initial (meanings_of P.meaning self.now.initial)
            (λ a. all_calls a (opening self.now.setup.memory self.now.setup.lines) self.now.entries) self.now.meanings }
    {
        &self.recorder
    }

    /// The closing lines: the credits of each send grant, the current activity of each tile from 2 on, the flights, and
    /// whether the driver has nothing more to do.
    pub fn audit(&self, alloc: Global) -> Result<Audit, AllocError>
        ensures { IfOk result (λ a. a.lines.items ≡
            audit_lines self.now.setup.tiles (ideal self.now) (placement self.now) self.now.left) }
    {
        let mut lines = Vec::new(alloc);
        let seats = self.engine.seats();
        let tiles = self.engine.tiles();
        let wires = self.engine.wires();
        credit_lines(alloc, self.engine.grants(), tiles, seats, wires, &mut lines)?;
        tile_lines(self.recorder.setup().tiles(), tiles, &mut lines)?;
        lines.push(AuditLine::Flights(flights(seats, wires)))?;
        lines.push(AuditLine::Quiet(self.next().is_none()))?;
        Ok(Audit { lines })
    }
}
