// The words of document 01 as types: job, owner, plan, score, refusal, report, block.
#![tactic(auto)]

ghost use Rattle.std.specs.Prelude.{◌≡◌, ◌≤◌, ltb};
ghost use Rattle.rules.specs.Sizes.{is_short, fits_sizes, is_long, most_entries};
ghost use Rattle.rules.specs.Refusals.{number_of};
ghost use Rattle.rules.specs.Scores.{score_of, minus_of, matches_of, Within, limit};
ghost use Rattle.rules.specs.Reports.{kind_of, visits_of};

// A job's number. A put cannot take a job for an owner.
#[derive(Clone, Copy)]
pub struct Job(pub u32);

// An owner's number.
#[derive(Clone, Copy)]
pub struct Owner(pub u32);

// A plan's counts: jobs, owners and fixed pairs. The sizes are constants that belong to it.
#[derive(Clone, Copy)]
pub struct Plan {
    pub jobs: u32,
    pub owners: u32,
    pub fixed: u32,
}

impl Plan {
    pub const JOBS: usize = 512;

    pub const OWNERS: usize = 64;

    pub const FIXED: usize = 3072;

    pub const ENTRIES: usize = 1024;
    // 2^40: no duration is longer.
    pub const LONGEST: u64 = 1099511627776;
    // An expected owner of this number means that none is stated.
    pub const NOBODY: u32 = 4294967295;
    // The store's slices, in words.
    pub const BASE: usize = 6661;

    pub const SPANS: usize = Plan::JOBS;

    pub const EDGES: usize = 13314;

    pub const ROUTES: usize = 1794;

    pub const TIMES: usize = 514;

    // The counts are within the sizes.
    pub fn fits(self) -> bool
        ensures { result ≡ fits_sizes self.jobs self.owners self.fixed }
    {
        let jobs = self.jobs as usize;
        let owners = self.owners as usize;
        let fixed = self.fixed as usize;
        if Plan::JOBS < jobs {
            return false;
        }
        if Plan::OWNERS < owners {
            return false;
        }
        fixed <= Plan::FIXED
    }

    // An entry with this number is valid.
    pub fn has_job(self, job: Job) -> bool
        ensures { result ≡ ltb job.0 self.jobs }
    {
        job.0 < self.jobs
    }

    pub fn has_owner(self, owner: Owner) -> bool
        ensures { result ≡ ltb owner.0 self.owners }
    {
        owner.0 < self.owners
    }

    // A duration that load refuses.
    pub fn too_long(duration: u64) -> bool
        ensures { result ≡ is_long duration }
    {
        Plan::LONGEST < duration
    }

    // A list of entries that put refuses.
    pub fn too_many(entries: usize) -> bool
        ensures { result ≡ ltb most_entries entries }
    {
        Plan::ENTRIES < entries
    }

    // Of slices with these lengths, one is shorter than its constant.
    pub fn short(base: usize, spans: usize, edges: usize, routes: usize, times: usize) -> bool
        ensures { result ≡ is_short (record { base = base; spans = spans; edges = edges; routes = routes; times = times }) }
    {
        if base < Plan::BASE {
            return true;
        }
        if spans < Plan::SPANS {
            return true;
        }
        if edges < Plan::EDGES {
            return true;
        }
        if routes < Plan::ROUTES {
            return true;
        }
        times < Plan::TIMES
    }
}

// Minus the hard penalty, then minus the makespan; or a difference of two such.
#[derive(Clone, Copy)]
pub struct Score {
    pub hard: i64,
    pub soft: i64,
}

impl Score {
    // The score of a hard penalty and a makespan.
    pub fn of(penalty: u64, makespan: u64) -> Score
        requires { (penalty ≤ limit) × (makespan ≤ limit) }
        ensures { result ≡ score_of penalty makespan }
    {
        Score {
            hard: 0 - (penalty as i64),
            soft: 0 - (makespan as i64),
        }
    }

    // Part by part, of either sign.
    pub fn minus(self, other: Score) -> Score
        requires { Within self × Within other }
        ensures { result ≡ minus_of self other }
    {
        let a = self.hard;
        let b = other.hard;
        let c = self.soft;
        let d = other.soft;
        Score {
            hard: a - b,
            soft: c - d,
        }
    }

    // The match count, from the penalty and the makespan that the score is made of.
    pub fn match_count(self) -> u64
        requires { Within self }
        ensures { result ≡ matches_of self }
    {
        let penalty = (0 - self.hard) as u64;
        if self.soft < 0 {
            return penalty + 1;
        }
        penalty
    }
}

// Why a call is refused.
#[derive(Clone, Copy)]
pub enum Refusal {
    NotLoaded,
    BadSize,
    LongDuration,
    BadFixed,
    NoSuchOwner,
    TooManyEntries,
    NoRoom,
    BadPositions,
    ShortStore,
    ShortAnswer,
    BrokenRoute,
    BadStore,
}

impl Refusal {
    // Document 01's number.
    pub fn number(self) -> u8
        ensures { result ≡ number_of self }
    {
        match self {
            Refusal::NotLoaded => 1,
            Refusal::BadSize => 2,
            Refusal::LongDuration => 3,
            Refusal::BadFixed => 4,
            Refusal::NoSuchOwner => 5,
            Refusal::TooManyEntries => 6,
            Refusal::NoRoom => 7,
            Refusal::BadPositions => 8,
            Refusal::ShortStore => 9,
            Refusal::ShortAnswer => 10,
            Refusal::BrokenRoute => 11,
            Refusal::BadStore => 12,
        }
    }
}

// Words of a store that make no sense: a call that finds out is refused with 12.
#[derive(Clone, Copy)]
pub struct Senseless;

// What a put did to the starts.
#[derive(Clone, Copy)]
pub enum Report {
    Skipped,
    Full,
    CycleFound,
    Incremental(u32),
}

impl Report {
    // How a report is told in numbers, the visits aside.
    pub fn kind(self) -> u64
        ensures { result ≡ kind_of self }
    {
        match self {
            Report::Skipped => 0,
            Report::Full => 1,
            Report::CycleFound => 2,
            Report::Incremental(_) => 3,
        }
    }

    // 0 except where the walk ran.
    pub fn visits(self) -> u32
        ensures { result ≡ visits_of self }
    {
        match self {
            Report::Skipped => 0,
            Report::Full => 0,
            Report::CycleFound => 0,
            Report::Incremental(v) => v,
        }
    }
}

// A critical block: places first to last, inclusive, of an owner's route of this length. A caller in C reads it.
#[repr(C)]
#[derive(Clone, Copy)]
pub struct Block {
    pub owner: u32,
    pub first: u32,
    pub last: u32,
    pub length: u32,
}
