//! What every engine does.
ghost use Rattle.std.specs.Prelude.{◌≡◌};
ghost use Rattle.engine.specs.declared.answers.Answer.{Answer};
ghost use Rattle.engine.specs.Meaning.{Meaning, WellFormed, Clears, Puts, TurnsOn, TurnsOff, Prefers, Opens, Assumes, Next, Picked, Ends};

use crate::answers::Answer;
use crate::faults::EngineFault;
use crate::trials::{Key, Trial, begun, cut, spent};
use cnf::literals::Literal;

/// An engine holds texts, which are clauses numbered from 1. Some are on. In a trial it has a trail of literals, and
/// finds texts that are on and false there, or that force a literal. A refused call changes nothing.
pub trait Engine {
    /// What the engine stands for.
    ghost meaning: { Self → Meaning };

    /// What the engine promises of its answers beyond this trait.
    ghost picks: { Meaning → Answer → Type 0 } = { λ _ _. Unit {0} };

    /// What an engine stands for is well formed.
    ghost laws: { (engine : Self) → WellFormed (meaning engine) };

    /// Whether a trial is open.
    fn is_open(&self) -> bool
        ensures { result ≡ (meaning self.now).opened };

    /// How many answers it gave since it was made or cleared, at most 4,294,967,295.
    fn answers(&self) -> u32
        ensures { result ≡ (meaning self.now).answers };

    /// How many texts it can hold.
    fn text_limit(&self) -> u16
        ensures { result ≡ (meaning self.now).text_limit };

    /// How many literals its texts can hold in all.
    fn literal_limit(&self) -> u16
        ensures { result ≡ (meaning self.now).literal_limit };

    /// Empties the engine, and counts its answers from 0 again.
    fn clear(&mut self) -> Result<(), EngineFault>
        ensures does { Clears (meaning self.old) result (meaning self.new) };

    /// Adds a text at the end, which is off. Its literals may come in any order.
    fn put(&mut self, literals: &[Literal]) -> Result<(), EngineFault>
        ensures does { Puts (meaning self.old) literals.now result (meaning self.new) };

    /// Turns a text on that is off.
    fn on(&mut self, number: u16) -> Result<(), EngineFault>
        ensures does { TurnsOn (meaning self.old) number result (meaning self.new) };

    /// Turns a text off that is on.
    fn off(&mut self, number: u16) -> Result<(), EngineFault>
        ensures does { TurnsOff (meaning self.old) number result (meaning self.new) };

    /// Says that a text that is on is in the core: an engine may ask it first.
    fn prefer(&mut self, number: u16) -> Result<(), EngineFault>
        ensures does { Prefers (meaning self.old) number result (meaning self.new) };

    /// What `open` does but for the token. Only this crate has a key.
    fn begin(&mut self, key: &Key) -> Result<(), EngineFault>
        ensures does { Opens (meaning self.old) result (meaning self.new) };

    /// Puts a literal whose variable has no value on the trail.
    fn assume(&mut self, trial: &Trial, literal: Literal) -> Result<(), EngineFault>
        ensures does { Assumes (meaning self.old) literal result (meaning self.new) };

    /// Answers, and counts the answer. A literal that is forced joins the trail.
    fn next(&mut self, trial: &Trial) -> Result<Answer, EngineFault>
        ensures does { Next (meaning self.old) result (meaning self.new) }
        ensures picked { Picked picks (meaning self.old) result };

    /// What `end` does but for the token. Only this crate has a key.
    fn finish(&mut self, key: &Key) -> Result<(), EngineFault>
        ensures does { Ends (meaning self.old) result (meaning self.new) };

    /// Opens a trial with an empty trail. The token must be ended.
    fn open(&mut self) -> Result<Trial, EngineFault>
        ensures does { Opens (meaning self.old) result (meaning self.new) }
    {
        self.begin(&cut())?;
        Ok(begun())
    }

    /// Ends the trial and empties the trail. The token is used up, also where this refuses.
    fn end(&mut self, trial: Trial) -> Result<(), EngineFault>
        ensures does { Ends (meaning self.old) result (meaning self.new) }
    {
        spent(trial);
        self.finish(&cut())
    }
}
