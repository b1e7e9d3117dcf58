//! What is measured: modules, each with a goal of one process.

/// A process whose trial is measured. Each of them commits.
#[derive(Clone, Copy, Debug, PartialEq, Eq)]
pub(crate) enum Case {
    /// Two streams of which both have an element: the first clause commits, with a child, a pair and four places.
    Merge,
    /// A stream of numbers up to a limit: a comparison holds, and two children, a pair, a sum and four places are made.
    Gen,
    /// The sum of a list: two children, a sum and five places.
    Sum,
}

const MERGE: &str = "merge([X|Xs],Ys,[X|Zs]) :- merge(Xs?,Ys,Zs).
merge(Xs,[Y|Ys],[Y|Zs]) :- merge(Xs,Ys?,Zs).
merge([],Ys,Ys).
merge(Xs,[],Xs).
";

const GEN: &str = "gen(I,N,[I|Is]) :- I =< N | J := I + 1, gen(J?,N,Is).
gen(I,N,[]) :- I > N | true.
";

const SUM: &str = "sum([X|Xs],A,S) :- B := A + X, sum(Xs?,B?,S).
sum([],A,A).
";

impl Case {
    /// The module.
    pub(crate) fn module(self) -> &'static str {
        match self {
            Case::Merge => MERGE,
            Case::Gen => GEN,
            Case::Sum => SUM,
        }
    }

    /// The goal.
    pub(crate) fn goal(self) -> &'static str {
        match self {
            Case::Merge => "merge([1|Xs?],[2|Ys?],Zs)",
            Case::Gen => "gen(1,1000,Is)",
            Case::Sum => "sum([1,2|Xs?],0,S)",
        }
    }

    /// The name that is printed.
    pub(crate) fn name(self) -> &'static str {
        match self {
            Case::Merge => "merge",
            Case::Gen => "gen",
            Case::Sum => "sum",
        }
    }
}
