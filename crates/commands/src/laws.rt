//! Laws: two runs over the same texts end alike, and examples of writers and faults. Each is a function whose contract is the law,
//! for any readers; its body is empty, or calls a law of a crate below.
ghost use Rattle.commands.specs.declared.mine.MineFiles.{MineFiles};
ghost use Rattle.commands.specs.Solve.{files_of, given_by};
ghost use Rattle.commands.specs.CutShort.{CutsAnswer, CutsPit, CutsReplay, CutsShells};
ghost use Rattle.commands.specs.ExampleRuns.{FilesThatFail, WritersOfChoice};
ghost use Rattle.commands.specs.Uniqueness.{SolvesOnce, NeverFaulty, FaultsOnce, NestsOnce, AnswerIsOne, ChecksOnce, CheckFaultsOnce, PassesCheck, PassesReplay, ReplayFaultsOnce, ReplaysOnce, ShellFaultsOnce, SpendsOneWay, SpendsReplay, TakesReplay};

use minelib_reader::{InBytes, blocks_law};

/// Two runs of `solve` over the same texts that are done in the same direction wrote the same text, in any modes and with any
/// numbers of workers.
pub fn solve_writes_one_text<
    M: InBytes,
    P: InBytes,
    F: InBytes,
    N: InBytes,
    Q: InBytes,
    G: InBytes,
>()
    ensures { (files files_end : MineFiles M P F) (other other_end : MineFiles N Q G) → SolvesOnce
        (files_of M.InBytes P.InBytes F.InBytes files files_end)
        (files_of N.InBytes Q.InBytes G.InBytes other other_end) }
{}

/// If a run of `solve` is done, no run over the same texts finds a fault in them: one that reads no mine lacks memory or meets a
/// failed read.
pub fn done_texts_have_no_fault<
    M: InBytes,
    P: InBytes,
    F: InBytes,
    N: InBytes,
    Q: InBytes,
    G: InBytes,
>()
    ensures { (files files_end : MineFiles M P F) (other other_end : MineFiles N Q G) → NeverFaulty
        (files_of M.InBytes P.InBytes F.InBytes files files_end)
        (files_of N.InBytes Q.InBytes G.InBytes other other_end) }
{}

/// Two runs over the same texts that their first fault refuses name the same fault, with the same text.
pub fn texts_have_one_fault<
    M: InBytes,
    P: InBytes,
    F: InBytes,
    N: InBytes,
    Q: InBytes,
    G: InBytes,
>()
    ensures { (files files_end : MineFiles M P F) (other other_end : MineFiles N Q G) → FaultsOnce
        (files_of M.InBytes P.InBytes F.InBytes files files_end)
        (files_of N.InBytes Q.InBytes G.InBytes other other_end) }
{}

/// If a run of `solve` on one thread ends within its budget, no such run over the same texts, with the same budget and in the same
/// direction, uses it up.
pub fn solve_spends_one_way<
    M: InBytes,
    P: InBytes,
    F: InBytes,
    N: InBytes,
    Q: InBytes,
    G: InBytes,
>()
    ensures { (files files_end : MineFiles M P F) (other other_end : MineFiles N Q G) → SpendsOneWay
        (files_of M.InBytes P.InBytes F.InBytes files files_end)
        (files_of N.InBytes Q.InBytes G.InBytes other other_end) }
{}

/// Two runs of `shells` over the same texts, with the same columns and factors, that are done in the same direction wrote the same
/// text, in any modes and with any numbers of workers.
pub fn shells_write_one_text<B: InBytes, P: InBytes, N: InBytes, Q: InBytes>()
    ensures { (blocks blocks_end : B) (prec prec_end : P) (other_blocks other_blocks_end : N) (other_prec other_prec_end : Q) → NestsOnce
        (given_by B.InBytes blocks blocks_end)
        (given_by P.InBytes prec prec_end)
        (given_by N.InBytes other_blocks other_blocks_end)
        (given_by Q.InBytes other_prec other_prec_end) }
{}

/// Two runs of `shells` over the same texts, with the same columns, that blame one of them name the same fault, with the same text.
pub fn shells_have_one_fault<B: InBytes, P: InBytes, N: InBytes, Q: InBytes>()
    ensures { (blocks blocks_end : B) (prec prec_end : P) (other_blocks other_blocks_end : N) (other_prec other_prec_end : Q) → ShellFaultsOnce
        (given_by B.InBytes blocks blocks_end)
        (given_by P.InBytes prec prec_end)
        (given_by N.InBytes other_blocks other_blocks_end)
        (given_by Q.InBytes other_prec other_prec_end) }
{
    blocks_law();
}

/// A certificate's text has one answer: yes or no, never both.
pub fn answer_is_one()
    ensures { AnswerIsOne }
{}

/// Two runs of `check` over the same texts that are done wrote the same answer and ended with the same status.
pub fn check_answers_once<
    M: InBytes,
    P: InBytes,
    F: InBytes,
    N: InBytes,
    Q: InBytes,
    G: InBytes,
    C: InBytes,
    D: InBytes,
>()
    ensures { (files files_end : MineFiles M P F) (other other_end : MineFiles N Q G) (certificate certificate_end : C) (other_certificate other_certificate_end : D) → ChecksOnce
        (files_of M.InBytes P.InBytes F.InBytes files files_end)
        (files_of N.InBytes Q.InBytes G.InBytes other other_end)
        (given_by C.InBytes certificate certificate_end)
        (given_by D.InBytes other_certificate other_certificate_end) }
{}

/// Two runs of `check` over the same texts that blame one of them name the same fault, with the same text.
pub fn check_has_one_fault<
    M: InBytes,
    P: InBytes,
    F: InBytes,
    N: InBytes,
    Q: InBytes,
    G: InBytes,
    C: InBytes,
    D: InBytes,
>()
    ensures { (files files_end : MineFiles M P F) (other other_end : MineFiles N Q G) (certificate certificate_end : C) (other_certificate other_certificate_end : D) → CheckFaultsOnce
        (files_of M.InBytes P.InBytes F.InBytes files files_end)
        (files_of N.InBytes Q.InBytes G.InBytes other other_end)
        (given_by C.InBytes certificate certificate_end)
        (given_by D.InBytes other_certificate other_certificate_end) }
{}

/// Two runs of `replay` over the same texts that are done wrote the same answer and ended with the same status.
pub fn replay_writes_one_text<
    M: InBytes,
    P: InBytes,
    F: InBytes,
    N: InBytes,
    Q: InBytes,
    G: InBytes,
    J: InBytes,
    K: InBytes,
>()
    ensures { (files files_end : MineFiles M P F) (other other_end : MineFiles N Q G) (journal journal_end : J) (other_journal other_journal_end : K) → ReplaysOnce
        (files_of M.InBytes P.InBytes F.InBytes files files_end)
        (files_of N.InBytes Q.InBytes G.InBytes other other_end)
        (given_by J.InBytes journal journal_end)
        (given_by K.InBytes other_journal other_journal_end) }
{}

/// Two runs of `replay` over the same texts that blame one of them name the same fault, with the same text.
pub fn replay_has_one_fault<
    M: InBytes,
    P: InBytes,
    F: InBytes,
    N: InBytes,
    Q: InBytes,
    G: InBytes,
    J: InBytes,
    K: InBytes,
>()
    ensures { (files files_end : MineFiles M P F) (other other_end : MineFiles N Q G) (journal journal_end : J) (other_journal other_journal_end : K) → ReplayFaultsOnce
        (files_of M.InBytes P.InBytes F.InBytes files files_end)
        (files_of N.InBytes Q.InBytes G.InBytes other other_end)
        (given_by J.InBytes journal journal_end)
        (given_by K.InBytes other_journal other_journal_end) }
{}

/// If `check` is done over the texts of a run of `solve` and the certificate that it wrote, the answer is yes.
pub fn solve_passes_check<
    M: InBytes,
    P: InBytes,
    F: InBytes,
    N: InBytes,
    Q: InBytes,
    G: InBytes,
    C: InBytes,
>()
    ensures { (files files_end : MineFiles M P F) (other other_end : MineFiles N Q G) (certificate certificate_end : C) → PassesCheck
        (files_of M.InBytes P.InBytes F.InBytes files files_end)
        (files_of N.InBytes Q.InBytes G.InBytes other other_end)
        (given_by C.InBytes certificate certificate_end) }
{}

/// What `replay` does over the texts of a run of `solve` and the journal that it wrote.
///
/// - If that run was done: it writes the same pit with the same status, unless memory runs out or a read or write fails.
/// - If that run used up its budget: it is refused by that budget with the same number of mergers, unless memory runs out or a read fails.
///
/// It finds no fault in that journal.
pub fn solve_passes_replay<
    M: InBytes,
    P: InBytes,
    F: InBytes,
    N: InBytes,
    Q: InBytes,
    G: InBytes,
    J: InBytes,
>()
    ensures done { (files files_end : MineFiles M P F) (other other_end : MineFiles N Q G) (journal journal_end : J) → PassesReplay
        (files_of M.InBytes P.InBytes F.InBytes files files_end)
        (files_of N.InBytes Q.InBytes G.InBytes other other_end)
        (given_by J.InBytes journal journal_end) }
    ensures spent { (files files_end : MineFiles M P F) (other other_end : MineFiles N Q G) (journal journal_end : J) → SpendsReplay
        (files_of M.InBytes P.InBytes F.InBytes files files_end)
        (files_of N.InBytes Q.InBytes G.InBytes other other_end)
        (given_by J.InBytes journal journal_end) }
    ensures taken { (files files_end : MineFiles M P F) (other other_end : MineFiles N Q G) (journal journal_end : J) → TakesReplay
        (files_of M.InBytes P.InBytes F.InBytes files files_end)
        (files_of N.InBytes Q.InBytes G.InBytes other other_end)
        (given_by J.InBytes journal journal_end) }
{}

/// A run whose write failed wrote a beginning of the text that a done run of the same command over the same texts writes, and its
/// writer failed once.
pub fn cut_texts_begin_whole_ones<
    M: InBytes,
    P: InBytes,
    F: InBytes,
    N: InBytes,
    Q: InBytes,
    G: InBytes,
    L: InBytes,
    K: InBytes,
>()
    ensures solve { (files files_end : MineFiles M P F) (other other_end : MineFiles N Q G) → CutsPit
        (files_of M.InBytes P.InBytes F.InBytes files files_end)
        (files_of N.InBytes Q.InBytes G.InBytes other other_end) }
    ensures shells { (blocks blocks_end : M) (prec prec_end : P) (other_blocks other_blocks_end : N) (other_prec other_prec_end : Q) → CutsShells
        (given_by M.InBytes blocks blocks_end)
        (given_by P.InBytes prec prec_end)
        (given_by N.InBytes other_blocks other_blocks_end)
        (given_by Q.InBytes other_prec other_prec_end) }
    ensures check { (files files_end : MineFiles M P F) (other other_end : MineFiles N Q G) (certificate certificate_end : L) (other_certificate other_certificate_end : K) → CutsAnswer
        (files_of M.InBytes P.InBytes F.InBytes files files_end)
        (files_of N.InBytes Q.InBytes G.InBytes other other_end)
        (given_by L.InBytes certificate certificate_end)
        (given_by K.InBytes other_certificate other_certificate_end) }
    ensures replay { (files files_end : MineFiles M P F) (other other_end : MineFiles N Q G) (journal journal_end : L) (other_journal other_journal_end : K) → CutsReplay
        (files_of M.InBytes P.InBytes F.InBytes files files_end)
        (files_of N.InBytes Q.InBytes G.InBytes other other_end)
        (given_by L.InBytes journal journal_end)
        (given_by K.InBytes other_journal other_journal_end) }
{}

/// A clause about a writer that a run may have or not holds of a writer that is there, asks nothing of one that is missing, and lets
/// none come or go.
pub fn writers_of_choice()
    ensures { WritersOfChoice }
{}

/// What is reported of a model that could not be opened and of an output that could not be created, and the exit status.
pub fn files_that_fail()
    ensures { FilesThatFail }
{}
