//! What holds of statements and labelled tables, each on a function that does nothing.
ghost use Rattle.resin_statement_laws.specs.Calls.{ShowsColumns, ShowsRows, Makes, PutsLast, SetsCells, TakesOut};
ghost use Rattle.resin_statement_laws.specs.Fronts.{FrontsLeave, CellsKeep};
ghost use Rattle.resin_statement_laws.specs.Programs.{ProgramsCarry, LiteralsCarry, WorldsCarry, JoinProgramsAnswer, JoinWorldsAnswer};
ghost use Rattle.resin_statement_laws.specs.Programs.{TotalProgramsAnswer, TotalWorldsAnswer};
ghost use Rattle.resin_statement_laws.specs.Literals.{KeepsLiterals};
ghost use Rattle.resin_statement_laws.specs.Laws.{ReadsKept, StatementsAreEffects, JoinsAreEffects, TotalsAreEffects};
ghost use Rattle.resin_statement_laws.specs.Laws.{RunsAreEffects, JoinRunsAreEffects, TotalRunsAreEffects};

/// Each keeper call is a call on tables whose cells carry their policies: it answers the same, and leaves what a keeper holds of the tables that the
/// labelled call leaves. A cell that is put must be one that its column reads as it is; what was there needs nothing.
pub fn labelled_call_laws()
    ensures columns { ShowsColumns }
    ensures rows { ShowsRows }
    ensures create { Makes }
    ensures insert { PutsLast }
    ensures update { SetsCells }
    ensures delete { TakesOut }
{}

/// Each statement is an effect on tables whose cells carry their policies: following its plan over what a keeper holds leads to what a keeper holds
/// of the tables that the effect leaves, and comes to the same answer, or the same refusal. Joins and totals change nothing, and answer the cells of
/// the rows. The values of the statement must be cells that are read as they are; those are that the runtime keeps of its literals, where their sets
/// are sets of policy texts and their shadow texts have as many bytes as a number of 64 bits counts.
pub fn statement_laws()
    ensures literals { KeepsLiterals }
    ensures kept { ReadsKept }
    ensures statements { StatementsAreEffects }
    ensures joins { JoinsAreEffects }
    ensures totals { TotalsAreEffects }
{}

/// However a statement is carried out, and whatever calls of the keeper fail: where its run stops, the first steps of its effect were taken, and
/// where it has an answer, or is refused, all of them, and this is the effect's. The first steps leave every table of another name as it was, and of
/// the statement's own table what is said of rows: each that they don't write stays as it was, in its place. So each cell that stands there then is
/// the one that stood in its row and column before, or one of the statement's values, or NULL in a new row: a cell that no statement writes keeps its
/// value and its policies.
pub fn statement_run_laws()
    ensures runs { RunsAreEffects }
    ensures joins { JoinRunsAreEffects }
    ensures totals { TotalRunsAreEffects }
    ensures fronts { FrontsLeave }
    ensures cells { CellsKeep }
{}

/// The programs that scripts mean by their statements: they take the steps of the effects, whatever calls fail, at each moment at which want of
/// memory may leave things; so does such a program with what was kept of literals, whose cells have on each byte the texts of that byte's policies;
/// and so does every run that does as such a program does.
pub fn statement_program_laws()
    ensures programs { ProgramsCarry }
    ensures literals { LiteralsCarry }
    ensures worlds { WorldsCarry }
    ensures joins { JoinProgramsAnswer }
    ensures join_worlds { JoinWorldsAnswer }
    ensures totals { TotalProgramsAnswer }
    ensures total_worlds { TotalWorldsAnswer }
{}
