// What follows from the definitions alone: conditions at their edges, streams and bursts that just meet them and that just do not, and what holds of every
// stream. Nothing runs: as a promise it is asked for by every check.
ghost use Rattle.std.specs.Prelude.{ℕ, ◌<◌, List, [], ◌≡◌};
ghost use Rattle.code.specs.Guarantees.{Guarantees};
ghost use Rattle.code.specs.declared.Card.{Card};
ghost use Rattle.majority.specs.AsSent as AsSent;
ghost use Rattle.encoder.specs.Edges.{SendingEdges};
ghost use Rattle.majority.specs.Edges.{Edges, LargerEdges, ErasedEdges, LargerErasedEdges};
ghost use Rattle.majority.specs.Erased.{ErasedRows};
ghost use Rattle.majority.specs.Figures.{FigureRows};
ghost use Rattle.majority.specs.Plain.{Correctable, NoneErased, Former};
ghost use Rattle.majority.specs.Rule.{decoded, figure_by};
ghost use Rattle.majority.specs.SecondCircuit.{decoded_by_digits};
ghost use Rattle.outcomes.specs.Admissions.{Admissions};
ghost use Rattle.outcomes.specs.Claims.{SentAs};
ghost use Rattle.receiving.specs.Admissions as calls;
ghost use Rattle.receiving.specs.LevelRows.{LevelRows};
ghost use Rattle.standard.specs.Edges.{TermEdges};

// The third term's.
pub fn conditions_are_met()
    ensures edges { Edges Correctable × ErasedEdges AsSent.Correctable × Edges SentAs × Admissions }
    ensures larger_edges { LargerEdges Correctable × LargerErasedEdges AsSent.Correctable × LargerEdges SentAs }
{}

// Those under which a session's calls are refused, for cards with a long memory, several streams, or a number above 15.
pub fn calls_are_admitted()
    ensures { SendingEdges × calls.Admissions }
{}

// What comes out where digits are erased, by both circuits.
pub fn erased_digits_leave_the_vote()
    ensures { ErasedRows decoded × ErasedRows decoded_by_digits }
{}

// Where nothing is erased the rule and the condition are the former ones, for every accepted card.
pub fn nothing_erased_is_the_former_rule()
    ensures { (c : Card) → Guarantees c → (frames erased : List ℕ) (u i : ℕ) → i < c.k → NoneErased c erased u → Former c frames erased u i }
{}

// What levels yield at the edges of the band around zero, and that outside it every reading yields what it did.
pub fn levels_are_read()
    ensures { LevelRows }
{}

// The rule's by which the standard cards were made.
pub fn terms_are_taken()
    ensures { TermEdges }
{}

// The link figure where no syndrome is held: before the first frame, and without memory.
pub fn figure_is_zero()
    ensures { ((c : Card) → figure_by c [] [] ≡ 0) × ((c : Card) (frames erased : List ℕ) → c.m ≡ 0 → figure_by c frames erased ≡ 0) }
{}

// .. and where some are, in three parity streams and in a long memory.
pub fn figure_counts_every_syndrome()
    ensures { FigureRows }
{}

// Both circuits give equal frames, for every accepted card and every stream, whichever digits are erased.
pub fn circuits_agree()
    ensures { (c : Card) → Guarantees c → (frames erased : List ℕ) → decoded_by_digits c frames erased ≡ decoded c frames erased }
{}
