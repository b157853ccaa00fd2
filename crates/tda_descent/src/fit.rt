// A fit that was made.
ghost use Rattle.std.specs.Prelude.{◌≡◌};
ghost use Rattle.tda_descent.specs.declared.fit.DescentStop.TheVariants.{NoMemory};

use tda_io::NoMemory as OutOfMemory;

/// A fit: the tables of its units, with prices that show them to be least ones.
#[derive(Debug, Drop)]
pub struct Fit {
    /// None where the nation is fitted, else the unit whose children are.
    pub parent: Option<u32>,
    /// The nation alone, or the children of the parent in file order.
    pub units: Vec<u32>,
    /// Unit by unit, a count for each cell, at most 2^30.
    pub counts: Vec<u64>,
    /// The prices of all nodes of the fit's network but the hub, whose price is 0: at most 2^96 either way.
    pub prices: Vec<i128>,
    /// The deviation of all its units together, below 2^110.
    pub deviation: u128,
}

/// Why a descent ended early.
#[derive(Clone, Copy, Debug, PartialEq, Eq)]
pub enum DescentStop {
    /// A fit was refused.
    Stopped,
    /// There was not enough memory.
    NoMemory,
}

impl From<OutOfMemory> for DescentStop {
    ghost from_gives = { λ _ e. e ≡ NoMemory };

    fn from(_: OutOfMemory) -> Self {
        DescentStop::NoMemory
    }
}
