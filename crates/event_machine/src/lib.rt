//! Deterministic machines that say events as they run, and their observational equivalence.
//!
//! A machine is a step function of its states; its events and its endings are types that the crate
//! above gives, with a test that tells the broken endings. This crate has no code that runs: the
//! functions below state its laws as contracts. Crates above cite the laws as lemmas, which stand
//! in `specs/Laws.antt`.
#![tactic(auto)]

ghost use Rattle.std.specs.Prelude.{◌≡◌, ℕ, ◌≤◌, List, Bool};
ghost use Rattle.event_machine.specs.Outcome.{Outcome, outcome_map, outcome_relabel};
ghost use Rattle.event_machine.specs.Observation.{observed, Grows};
ghost use Rattle.event_machine.specs.Equivalent.{IsBroken, Equivalent};
ghost use Rattle.event_machine.specs.Follows.{Follows};

/// Within more steps more is observed of a run, and once it has ended nothing changes any more.
pub fn only_grows<Event, Ending, S>()
    ensures { (step : S → Outcome Event Ending S) (s : S) (n m : ℕ) →
        n ≤ m → Grows (observed step n s) (observed step m s) }
{}

/// Each machine is observationally equivalent to itself.
pub fn reflexive<Event, Ending, S>()
    ensures { (is_broken : Ending → Bool) (step : S → Outcome Event Ending S) (s : S) →
        Equivalent is_broken step s step s }
{}

/// Observational equivalences compose: so a chain of machines is shown link by link.
pub fn composes<Event, Ending, S, T, U>()
    ensures { (is_broken : Ending → Bool) (first : S → Outcome Event Ending S) →
        (second : T → Outcome Event Ending T) (third : U → Outcome Event Ending U) →
        (s : S) (t : T) (u : U) → Equivalent is_broken first s second t →
        Equivalent is_broken second t third u → Equivalent is_broken first s third u }
{}

/// Machines whose steps are equal are observationally equivalent.
pub fn pointwise<Event, Ending, S>()
    ensures { (is_broken : Ending → Bool) (first second : S → Outcome Event Ending S) →
        ((s : S) → first s ≡ second s) → (s : S) → Equivalent is_broken first s second s }
{}

/// A machine whose steps are those of another along a function of its states: the same is observed
/// of both within each number of steps, and they are observationally equivalent. So places, frames
/// and addresses may be renamed.
pub fn along_image<Event, Ending, S, T>()
    ensures observations { (first : S → Outcome Event Ending S) →
        (second : T → Outcome Event Ending T) (image : S → T) →
        ((s : S) → second (image s) ≡ outcome_map image (first s)) →
        (s : S) (n : ℕ) → observed second n (image s) ≡ observed first n s }
    ensures equivalent { (is_broken : Ending → Bool) (first : S → Outcome Event Ending S) →
        (second : T → Outcome Event Ending T) (image : S → T) →
        ((s : S) → second (image s) ≡ outcome_map image (first s)) →
        (s : S) → Equivalent is_broken first s second (image s) }
{}

/// Equivalent machines stay so where each event is looked at through a function, as where an event
/// carries more than what is compared.
pub fn along_labels<Event, Label, Ending, S, T>()
    ensures { (is_broken : Ending → Bool) (label : Event → Label) →
        (first : S → Outcome Event Ending S) (second : T → Outcome Event Ending T) →
        (s : S) (t : T) → Equivalent is_broken first s second t →
        Equivalent is_broken (λ s. outcome_relabel label (first s)) s
        (λ t. outcome_relabel label (second t)) t }
{}

/// A forward simulation with progress gives observational equivalence, forth and back: where from
/// related states both machines come to related states again, the rank falling while one of them
/// stands still, they are equivalent from related states. The relation is a type of its pairs.
pub fn forward_simulation<Event, Ending, S, T, Pair>()
    ensures { (is_broken : Ending → Bool) (first : S → Outcome Event Ending S) →
        (second : T → Outcome Event Ending T) →
        (left : Pair → S) (right : Pair → T) (rank : S → T → ℕ) →
        ((p : Pair) (said : List Event) → Follows is_broken first second
        (λ s t. (q : Pair) × (left q ≡ s) × (right q ≡ t)) rank (left p) (right p) said) →
        (p : Pair) → Equivalent is_broken first (left p) second (right p) }
{}

/// What an equivalence says beside its two clauses: the second machine is broken only where the
/// first is, and where the first is never broken, the equivalence holds the other way round too.
pub fn broken_only_by_the_first<Event, Ending, S, T>()
    ensures broken { (is_broken : Ending → Bool) (first : S → Outcome Event Ending S) →
        (second : T → Outcome Event Ending T) (s : S) (t : T) →
        Equivalent is_broken first s second t →
        (n : ℕ) → IsBroken is_broken (observed second n t) →
        (m : ℕ) × IsBroken is_broken (observed first m s) }
    ensures reversed { (is_broken : Ending → Bool) (first : S → Outcome Event Ending S) →
        (second : T → Outcome Event Ending T) (s : S) (t : T) →
        Equivalent is_broken first s second t →
        ((n : ℕ) → IsBroken is_broken (observed first n s) → ⊥) →
        Equivalent is_broken second t first s }
{}
