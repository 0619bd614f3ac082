ghost use Rattle.std.specs.Prelude.{◌≡◌, ℕ, ◌<◌, true, ◌↔◌, IsTrue, MatchOption};
ghost use Rattle.stamps.specs.KeySets.{has};
ghost use Rattle.stamps.specs.Numbers.{keys};
ghost use Rattle.causal.specs.Tables.{held_stamp, face_of, CoversHeld, NoStampFalls};
ghost use Rattle.causal.specs.Holding.{holding, answered};
ghost use Rattle.causal.specs.Choosing.{is_newer, put_in, Fits, LargestFit, Chosen, WithheldHere};

use crate::answers::Answers;
use crate::cut::Cut;
use stamps::below::Key;
use stamps::keyset::KeySet;
use stamps::stamp::Stamp;
use versions::row::Row;
use versions::version::Version;

impl Cut {
    // Chooses: of the answers that are newer than the cut, puts in the largest set that leaves it causal, and
    // says how many keys moved and how many newer answers were withheld. Kept a tuple, which
    // goes up unaltered to the answer line.
    pub fn choose(&mut self, answers: &Answers) -> (u32, u32)
        ensures chosen { Chosen (holding self.old) (answered answers.now) (holding self.new) result.0 result.1 }
        ensures withheld { WithheldHere (holding self.old) (answered answers.now) (holding self.new) }
        ensures no_stamp_falls { NoStampFalls (holding self.old) (holding self.new) }
    {
        let newer = self.newer_keys(answers);
        let fitting = self.fitting_keys(answers, newer);
        self.put_in(answers, fitting);
        (fitting.len(), newer.len() - fitting.len())
    }

    // The keys whose answer is newer than the cut.
    fn newer_keys(&self, answers: &Answers) -> KeySet
        ensures { (k : ℕ) → has result k ≡ is_newer (holding self.now) (answered answers.now) k }
    {
        KeySet::of(|key| answers.given.stamp_at(key) > self.face.stamps[key.place()])
    }

    // The largest set of newer answers that fits: all of them, less those that turn out to rest on what the
    // cut would not have.
    fn fitting_keys(&self, answers: &Answers, newer: KeySet) -> KeySet
        requires { (k : ℕ) → has newer k ≡ is_newer (holding self.now) (answered answers.now) k }
        ensures { LargestFit (holding self.now) (answered answers.now) (has result) }
    {
        let mut fitting = newer;
        // Kept a `while let`: which answer misfits is asked anew once one is struck out, so there is no list to go over.
        while let Some(key) = self.misfit(answers, fitting) {
            fitting = fitting.without(key);
        }
        fitting
    }

    // Kept beside each other in the three steps below, answers and a set of their keys are one choosing's own: a struct
    // of both would be made and taken apart in one method.
    //
    // A key of a set of answers whose answer is not covered once they are all put in, or none.
    fn misfit(&self, answers: &Answers, chosen: KeySet) -> Option<Key>
        ensures { MatchOption result
            ((k : ℕ) → has chosen k ≡ true
            → CoversHeld (face_of (put_in (holding self.now) (answered answers.now) (has chosen))) (answered answers.now k))
            (λ k. (k < keys) × (has chosen k ≡ true)
            × (CoversHeld (face_of (put_in (holding self.now) (answered answers.now) (has chosen))) (answered answers.now k) → ⊥)) }
    {
        let raised = self.face_with(answers, chosen);
        for key in chosen.keys() {
            if !covers_held(&raised, answers.given.at(key)) {
                return Some(key);
            }
        }
        None
    }

    // The face that the cut would have with some answers put in. Kept a loop of its own, beside the table's: as one
    // function over arrays of either kind it read every answer and built rows and tables anew, in twice the time.
    fn face_with(&self, answers: &Answers, chosen: KeySet) -> Row
        ensures { result ≡ face_of (put_in (holding self.now) (answered answers.now) (has chosen)) }
    {
        let mut face = self.face;
        for key in chosen.keys() {
            face.stamps[key.place()] = answers.given.stamp_at(key);
        }
        face
    }

    // Replaces the cut by itself with some answers put in; it is not written where there are none.
    fn put_in(&mut self, answers: &Answers, chosen: KeySet)
        requires { Fits (holding self.old) (answered answers.now) (has chosen) }
        ensures { (k : ℕ) → holding self.new k ≡ put_in (holding self.old) (answered answers.now) (has chosen) k }
    {
        if chosen.is_empty() {
            return;
        }
        let face = self.face_with(answers, chosen);
        let mut held = self.held;
        held.put_some_of(&answers.given, chosen);
        *self = Cut { held, face };
    }
}

// The stamp of what is held; 0 for none.
pub fn stamp_of(held: &Option<Version>) -> Stamp
    ensures { result.number ≡ held_stamp held.now }
{
    held.as_ref().map_or(Stamp::NONE, |version| version.stamp)
}

// Whether a face covers the row of what is held, if anything is.
fn covers_held(face: &Row, held: &Option<Version>) -> bool
    ensures { IsTrue result ↔ CoversHeld face.now held.now }
{
    held.as_ref()
        .is_none_or(|version| face.covers(&version.row))
}
