// The codes of refusals, what they mean and how they are fixed. docs/CODES.md has the same entries, and tests/codes compares both.

ghost use Rattle.std.specs.Prelude.{◌≡◌, IfSome};

/// What a code means, and how it is fixed.
#[derive(Clone, Copy)]
pub struct CodeEntry {
    /// A letter and a digit.
    pub code: &'static str,
    /// What stands behind it in the refusal's line, where something does.
    pub place: &'static str,
    pub wrong: &'static str,
    pub remedy: &'static str,
}

/// What is to be done where a text begins with a byte order mark.
pub const BYTE_ORDER_MARK: &str = "the file begins with a byte order mark, which editors don't \
show: save it without one";

/// What is to be done where a line is blank.
pub const BLANK_LINE: &str = "the line is blank: take it away; a blank line is a line like any \
other, at a file's end, too";

/// What is to be done where a label with parameters has no quotes.
pub const BARE_LABEL: &str = "a label with parameters wants quotes, as in \
`<\"take(0,1)\">true`";

/// The entry of a code.
pub fn code_entry(code: &str) -> Option<&'static CodeEntry>
    ensures { IfSome result (λ entry. entry.now.code.now ≡ code.now) }
{
    entries_beside(code).iter().find(|entry| entry.code == code)
}

/// The entries among which this code's is, if it has one: they stand in several tables, since a proof of a long one takes long.
fn entries_beside(code: &str) -> &'static [CodeEntry] {
    match code.as_bytes().first() {
        Some(b'A') => &SYSTEM,
        Some(b'F' | b'L') => &FORMULA,
        Some(b'N' | b'B' | b'T' | b'V') => &SOLVING,
        Some(b'G') => &GAME,
        Some(b'E') => &EVIDENCE,
        Some(b'C') => &CHECKING,
        Some(b'S') => &SCHEDULE,
        Some(b'U' | b'W') => &CALL,
        _ => &[],
    }
}

/// Entries: of each the code and its place, what it means, and how it is fixed.
macro_rules! entries {
    ($($code:literal $place:literal: $wrong:literal => $remedy:literal;)*) => {
        [$(CodeEntry { code: $code, place: $place, wrong: $wrong, remedy: $remedy }),*]
    };
}

static SYSTEM: [CodeEntry; 9] = entries! {
    "A1" " at line 1":
        "the first line isn't `des (initial,transitions,states)`"
        => "mostly both files stand in the wrong order on the command line (the system \
        comes first), or the file begins with a byte order mark, which editors don't show (`head \
        -c 3 FILE | od -c` does): save it without; else write that header";
    "A2" " at line N":
        "the line isn't `(source,\"label\",target)`"
        => "mostly the label has no quotes: mCRL2's `lps2lts` writes them, other tools may \
        leave them out; else look for a missing comma or parenthesis, a number with a leading 0, \
        or something after the `)`";
    "A3" " at line 1":
        "more than 10,000,000 transitions or 1,000,000 states are announced"
        => "reduce the system first, for example by branching bisimulation";
    "A4" " at line N":
        "a state isn't below the number of states"
        => "states are numbered from 0; raise the number of states in the header, or fix \
        the line";
    "A5" " at line N":
        "there are fewer transition lines than announced (N is the line that is missing), \
        or line N is one too many"
        => "fix the header's second number, or see whether the file was cut off";
    "A6" " at line 1":
        "there is no state, or the initial state isn't one"
        => "fix the header";
    "A7" " at line N":
        "the label is empty, longer than 4,096 bytes, or has a byte that isn't printable \
        ASCII"
        => "rename the label";
    "A8" "":
        "the file can't be read, for example because it is a directory"
        => "look at the file";
    "A9" "":
        "out of memory while the system was read"
        => "use a machine with more memory, or reduce the system";
};

static FORMULA: [CodeEntry; 10] = entries! {
    "F1" " at offset N":
        "the byte there begins no token, or the quoted label there is empty, too long or \
        not closed"
        => "at a digit or a comma mostly a label with parameters, which wants quotes: \
        `<\"send(1)\">true`; `&&` and `||` are doubled";
    "F2" " at offset N":
        "no formula goes on with the token there"
        => "look at what stands right before it: often a missing `>` or `]`, a `.` after a \
        binder's variable, or a word that is no name; at a `(` in a modality mostly a label with \
        parameters, which wants quotes: `<\"enter(a)\">true`";
    "F3" " at offset N":
        "the text ends before the formula does"
        => "close what is open, or write what is lacking";
    "F4" " at offset N":
        "a reserved word of the full language: data, time and quantifiers aren't \
        supported"
        => "write the formula without it";
    "F5" " at offset N":
        "the variable there has no binder"
        => "bind it by `mu` or `nu`, or fix its spelling; an action stands in `<..>` or \
        `[..]` alone";
    "F6" " at offset N":
        "the variable there stands under an odd number of negations below its binder"
        => "push the negation inward: `!<a>X` is `[a]!X`, `!mu X. f` is a `nu`; the left \
        side of `=>` counts as a negation";
    "F7" " at offset N":
        "inside a modality, `!`, `&&`, `||` and `=>` join steps, not paths"
        => "use `||` for a choice of labels, `+` for a choice of paths, and `.` and `*` \
        outside of the parentheses";
    "F8" " at offset N":
        "the formula is longer than 1,048,576 bytes, nests deeper than 256, or has more \
        than 1,024 parentheses open at once"
        => "each sign nests, in a row too: `a && b && c` is `a && (b && c)`, so 300 \
        operands in a row nest 299 deep; put parentheses around halves, as `(a && b) && (c && \
        d)`, which nests 2 deep; else split the formula";
    "F9" "":
        "out of memory while the formula was read"
        => "use a machine with more memory";
    "L1" " at offset N":
        "`--strict` was asked for, and the name or the quoted label there is on no transition \
        of the system"
        => "fix its spelling: a name stands for the label that is just this name, or for one \
        that has it between bars, and a label with parameters wants quotes; where the formula \
        speaks of what can't happen, leave `--strict` away";
};

static SOLVING: [CodeEntry; 9] = entries! {
    "N1" "":
        "without regular formulas the formula has more than 4,096 nodes: `R + S` copies \
        what follows, and `R+` copies `R`"
        => "write a choice of single actions as `a || b`, which copies nothing: ten choices in a \
        row have 4,093 nodes by `+`, and 11 by `||`; else split the formula, or use `check --plain`, \
        for which there is no such limit";
    "N2" "":
        "a fixpoint's priority would be above 31: more than 31 fixpoints of alternating \
        kinds stand in one another, or more than 32 where the innermost is a `nu`"
        => "try `--priorities dependent`, or use `check --plain`";
    "B1" "":
        "the game would have more than 16,777,216 vertices: two, and one for each state with \
        each node of the normal form, which `mucheck normal` counts"
        => "use `check --plain`, for which there is no such limit, write a choice of single \
        actions as `a || b`, which has fewer nodes than `a + b`, or reduce the system";
    "N3" "":
        "out of memory for the normal form"
        => "use a machine with more memory";
    "B2" "":
        "out of memory for the game"
        => "use a machine with more memory, reduce the system, or use `check --plain`";
    "T1" "":
        "`--board packed` was asked for, and a measure of this game doesn't fit a word of \
        62 bits: too many vertices of too many odd priorities"
        => "leave `--board` away, or ask for `locked`";
    "T2" "":
        "out of memory for the board"
        => "use a machine with more memory, or fewer workers";
    "T3" "":
        "no seat was found to give on the board, as in a game without vertices, which the \
        program never makes"
        => "this is a fault of the program: tell who made it, with both files";
    "V1" "":
        "out of memory for the table of measures, one for each vertex"
        => "use a machine with more memory, or fewer workers";
};

static GAME: [CodeEntry; 8] = entries! {
    "G1" " at line 1":
        "the first line isn't `parity N;`"
        => "write that header, N being the greatest identifier";
    "G2" " at line N":
        "the line isn't `identifier priority owner successors \"name\";`"
        => "look for a missing `;`, an owner that is neither 0 nor 1, or a `start` line, \
        which isn't read";
    "G3" " at line N":
        "the identifier is above the header's or stands twice; or, where N is one past \
        the last line, one is missing"
        => "give each identifier from 0 to the header's one line";
    "G4" " at line N":
        "a successor is above the header's identifier, or there is none"
        => "where a player can't move, lead the vertex to itself, with a priority by which \
        that player loses";
    "G5" " at line N":
        "a priority is above 31"
        => "close the gaps between priorities, keeping their order and parity";
    "G6" " at line 1":
        "the greatest identifier is 16,777,216 or more"
        => "reduce the game";
    "G7" "":
        "the game can't be read, for example because its file is a directory"
        => "look at the file";
    "G8" "":
        "out of memory while the game was read"
        => "use a machine with more memory, or reduce the game";
};

static EVIDENCE: [CodeEntry; 5] = entries! {
    "E1" " at line 1":
        "the first line is neither `evidence even` nor `evidence odd`"
        => "write that header, and end lines by LF alone";
    "E2" " at line N":
        "the line isn't `vertex move (counts)` with single spaces, or the rank hasn't as \
        many counts as the player's ranks have in this game, or a count is above 16,777,216"
        => "look whether the evidence is of this game and of this player";
    "E3" " at line N":
        "the vertex or the move isn't a vertex of the game, or the vertex stands on a \
        line before"
        => "look whether the evidence is of this game";
    "E4" "":
        "the evidence can't be read, for example because its file is a directory"
        => "look at the file";
    "E5" "":
        "out of memory for evidence"
        => "use a machine with more memory";
};

static CHECKING: [CodeEntry; 5] = entries! {
    "C1" " at V":
        "V is the player's, and its move is missing or leads to no successor; or V is the \
        opponent's and has a move"
        => "fix the move";
    "C2" " at V":
        "the move, or a successor of the opponent's vertex V, isn't in the set"
        => "put that vertex into the set, or take V out";
    "C3" " at V":
        "along such an edge the rank rises, or doesn't fall where it has to"
        => "the ranks don't fit the moves: fix one or the other";
    "C4" "":
        "both pieces are good, and of one player"
        => "give one of each player";
    "C5" " at V":
        "both are good, and V is in neither"
        => "together they have to have every vertex of the game";
};

static SCHEDULE: [CodeEntry; 4] = entries! {
    "S1" " at line N":
        "the line isn't `take W V`, `read W V`, `raise W` or `push W V` with single \
        spaces"
        => "look for an empty line, a number with a leading 0, or a line that ends by CR \
        and LF";
    "S2" " at line N":
        "the worker isn't below the number of workers"
        => "workers are numbered from 0; raise `--workers`";
    "S3" " at line N":
        "the vertex isn't below the number of vertices"
        => "`check --game` writes the game with its vertices";
    "S4" "":
        "out of memory for the events or for the workers' state"
        => "use a machine with more memory, or fewer workers";
};

static CALL: [CodeEntry; 5] = entries! {
    "U1" "":
        "the command line is wrong, or would write to a file that is read or written \
        beside it, or `--help` or `--version` stands in it; the text below the line says what"
        => "see `mucheck help`, `mucheck help check`";
    "U2" "":
        "a file can't be opened or made; the line below says which, and why"
        => "look at its name and rights";
    "U3" "":
        "a read of the formula or of the schedule failed"
        => "look at the file";
    "U4" "":
        "out of memory in the program itself"
        => "use a machine with more memory";
    "W1" "":
        "the report or another text can't be written, for example because a disk is \
        full; what was written is a beginning of it"
        => "look at where the output goes";
};
