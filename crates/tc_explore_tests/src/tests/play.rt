//! Test cases played call by call on the component table, by a reading of their own: every schedule, with no reduction.
ghost use Rattle.std.specs.Prelude.{◌≤◌, length};
ghost use Rattle.tc_entry.specs.declared.limits.TheConstants.{BEHAVIOURS};

use std::alloc::Global;
use tc_entry::{Args, Comp, Entry, Group, Name, Op, Reply, Target};
use tc_rules::{CaseState, ends_pass};
use tc_step::{GroupPlace, Place, Places, Script, Status, Step, TargetPlace};
use tc_verdict::{NoMemory, Run, Verdict};

fn component(me: Comp, bound: &[Comp], place: Place) -> Comp {
    match place {
        Place::Main => Comp(0),
        Place::Own => me,
        Place::Bound(index) => match bound.get(usize::from(index)) {
            Some(comp) => *comp,
            None => Comp(0),
        },
    }
}

fn group(me: Comp, bound: &[Comp], place: GroupPlace) -> Group {
    match place {
        GroupPlace::One(place) => Group::One(component(me, bound, place)),
        GroupPlace::All => Group::All,
    }
}

fn target(me: Comp, bound: &[Comp], place: TargetPlace) -> Target {
    match place {
        TargetPlace::One(place) => Target::One(component(me, bound, place)),
        TargetPlace::Any => Target::Any,
        TargetPlace::All => Target::All,
    }
}

fn args(me: Comp, bound: &[Comp], places: &Places) -> Args {
    let mut args = Args::new();
    for place in places.as_slice() {
        // There is room: `Places` are `ARGUMENTS` at most, as `Args` are.
        let _ = args.push(component(me, bound, *place));
    }
    args
}

fn question(status: Status, target: Target) -> Op {
    match status {
        Status::Running => Op::Running(target),
        Status::Alive => Op::Alive(target),
        Status::Done => Op::Done(target),
        Status::Killed => Op::Killed(target),
    }
}

fn operation(me: Comp, bound: &[Comp], step: &Step) -> Op {
    match step {
        Step::Create { alive, name } => Op::Create {
            alive: *alive,
            name: name.as_ref().map(Name::copy),
        },
        Step::Start {
            on,
            run,
            args: places,
        } => Op::Start {
            comp: component(me, bound, *on),
            run: *run,
            args: args(me, bound, places),
        },
        Step::Stop(place) => Op::Stop(group(me, bound, *place)),
        Step::Kill(place) => Op::Kill(group(me, bound, *place)),
        Step::Ask(status, place) => question(*status, target(me, bound, *place)),
        Step::Wait {
            killed,
            target: place,
        } => Op::Wait {
            killed: *killed,
            target: target(me, bound, *place),
        },
        Step::StopCase => Op::StopCase,
        Step::SetVerdict(verdict) => Op::SetVerdict(*verdict),
        Step::GetVerdict => Op::GetVerdict,
    }
}

// The Wake that is to come after this call.
fn wake_after(op: &Op, reply: Reply) -> Option<Op> {
    if !reply.same(&Reply::Parked) {
        return None;
    }
    match op {
        Op::Wait { killed, target } | Op::Wake { killed, target } => Some(Op::Wake {
            killed: *killed,
            target: *target,
        }),
        _ => None,
    }
}

/// What a run has called so far.
#[derive(Drop)]
struct Player {
    me: Option<Comp>,
    bound: Vec<Comp>,
    called: usize,
    carried: usize,
    has_left: bool,
    wake: Option<Op>,
}

impl Player {
    fn copied(&self, alloc: Global) -> Result<Player, NoMemory> {
        let mut bound = Vec::new(alloc);
        bound.extend_from_slice(self.bound.as_slice())?;
        Ok(Player {
            me: self.me,
            bound,
            called: self.called,
            carried: self.carried,
            has_left: self.has_left,
            wake: self.wake.as_ref().map(Op::copy),
        })
    }

    fn next(&self, steps: &[Step]) -> Option<Op> {
        let me = self.me?;
        if self.has_left {
            return None;
        }
        if let Some(wake) = &self.wake {
            return Some(wake.copy());
        }
        match steps.get(self.called) {
            Some(step) => Some(operation(me, self.bound.as_slice(), step)),
            None => Some(Op::Finish),
        }
    }

    fn has_called(&mut self, entry: &Entry) -> Result<(), NoMemory> {
        if let Reply::Made(comp) = entry.reply {
            self.bound.push(comp)?;
        }
        if !matches!(entry.op, Op::Wake { .. }) {
            self.called = self.called.saturating_add(1);
        }
        if !matches!(entry.reply, Reply::Ended | Reply::Parked) {
            self.carried = self.carried.saturating_add(1);
        }
        self.wake = wake_after(&entry.op, entry.reply);
        if let Some(me) = self.me {
            self.has_left = ends_pass(me, entry);
        }
        Ok(())
    }

    fn is_started(&mut self, comp: Comp, args: &Args) -> Result<(), NoMemory> {
        self.me = Some(comp);
        self.bound.clear();
        self.bound.extend_from_slice(args.as_slice())?;
        Ok(())
    }
}

/// A case after some calls.
#[derive(Drop)]
pub struct Play {
    state: CaseState,
    players: Vec<Player>,
}

impl Play {
    /// A case in which nothing was called, of that many behaviours.
    pub fn opening(alloc: Global, behaviours: u16) -> Result<Play, NoMemory>
        requires some { 1 ≤ behaviours }
        requires few { behaviours ≤ BEHAVIOURS }
    {
        let mut players = Vec::new(alloc);
        for run in 0..behaviours {
            players.push(Player {
                me: if run == 0 { Some(Comp(0)) } else { None },
                bound: Vec::new(alloc),
                called: 0,
                carried: 0,
                has_left: false,
                wake: None,
            })?;
        }
        let state = CaseState::new(alloc, behaviours)?;
        Ok(Play { state, players })
    }

    fn copied(&self, alloc: Global) -> Result<Play, NoMemory> {
        let mut players = Vec::new(alloc);
        for player in &self.players {
            players.push(player.copied(alloc)?)?;
        }
        let state = self.state.copied(alloc)?;
        Ok(Play { state, players })
    }

    /// The next call of a run, if it has one left; of a Wake that would be parked again, none.
    pub fn next(&self, scripts: &[Script], run: u16) -> Option<Op> {
        let at = usize::from(run);
        let op = self.players.get(at)?.next(scripts.get(at)?.steps())?;
        let is_wake = matches!(op, Op::Wake { .. });
        if is_wake && self.state.would(Run(run), &op).same(&Reply::Parked) {
            return None;
        }
        Some(op)
    }

    /// Makes a call, and returns its reply.
    pub fn call(&mut self, run: u16, op: Op) -> Result<Reply, NoMemory> {
        let caller = Run(run);
        let reply = self.state.play(caller, op.copy())?;
        let entry = Entry { caller, op, reply };
        if let Some(player) = self.players.get_mut(usize::from(run)) {
            player.has_called(&entry)?;
        }
        if let Op::Start { comp, run, args } = &entry.op {
            if reply.same(&Reply::Ok) {
                if let Some(player) = self.players.get_mut(usize::from(run.0)) {
                    player.is_started(*comp, args)?;
                }
            }
        }
        Ok(reply)
    }

    /// Whether no run has a call left.
    pub fn is_complete(&self, scripts: &[Script]) -> bool {
        self.players
            .iter()
            .zip(scripts)
            .all(|(player, script)| player.next(script.steps()).is_none())
    }

    /// The overall verdict.
    pub fn verdict(&self) -> Verdict {
        self.state.overall()
    }
}

/// What all schedules give: the overall verdicts, the local ones with their components, and how many calls each run
/// carries out at most.
#[derive(Drop)]
pub struct All {
    pub verdicts: Vec<Verdict>,
    pub locals: Vec<(u32, Verdict)>,
    pub reached: Vec<usize>,
}

impl All {
    // Takes in the local verdicts of a case that is over.
    fn take_locals(&mut self, state: &CaseState) -> Result<(), NoMemory> {
        for comp in 0..state.components() {
            let local = (comp, state.local(Comp(comp)).unwrap_or(Verdict::None));
            if !self.locals.contains(&local) {
                self.locals.push(local)?;
            }
        }
        Ok(())
    }

    fn take(&mut self, play: &Play) -> Result<(), NoMemory> {
        for (reached, player) in self.reached.iter_mut().zip(&play.players) {
            *reached = (*reached).max(player.carried);
        }
        if play.state.is_over() && !self.verdicts.contains(&play.verdict()) {
            self.verdicts.push(play.verdict())?;
        }
        if play.state.is_over() {
            self.take_locals(&play.state)?;
        }
        Ok(())
    }
}

// Takes in what each run's next call leads to.
fn push_next(
    alloc: Global,
    scripts: &[Script],
    play: &Play,
    left: &mut Vec<Play>,
) -> Result<(), NoMemory> {
    for run in 0..play.state.behaviours() {
        if let Some(op) = play.next(scripts, run) {
            let mut next = play.copied(alloc)?;
            // What the table replies is in the play.
            let _ = next.call(run, op)?;
            left.push(next)?;
        }
    }
    Ok(())
}

/// What all schedules give, in which at most that many calls are made together; otherwise none. Once a case is over
/// each call is replied Ended, so its verdict stays.
pub fn all_schedules(
    alloc: Global,
    scripts: &[Script],
    most: usize,
) -> Result<Option<All>, NoMemory>
    requires some { 1 ≤ length scripts.now }
    requires few { length scripts.now ≤ BEHAVIOURS }
{
    let verdicts = Vec::new(alloc);
    let reached = vec![in alloc; 0; scripts.len()]?;
    let mut all = All {
        verdicts,
        locals: Vec::new(alloc),
        reached,
    };
    let mut left = Vec::new(alloc);
    left.push(Play::opening(alloc, scripts.len() as u16)?)?;
    for _ in 0..most {
        let Some(play) = left.pop() else {
            return Ok(Some(all));
        };
        all.take(&play)?;
        if !play.state.is_over() {
            push_next(alloc, scripts, &play, &mut left)?;
        }
    }
    Ok(None)
}
