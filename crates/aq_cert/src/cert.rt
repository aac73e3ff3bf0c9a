use sqlite_items::Items;

/// A relation to a goal: pairs of a place of the left automaton and one of the goal.
#[derive(Debug, Drop)]
pub struct Rel {
    /// The number of the goal.
    pub goal: u32,
    /// The pairs of places, the left's first.
    pub pairs: Items<(u32, u32)>,
}

/// Places of the left automaton, and relations of which one is to hold wherever not all of these places' vectors are
/// zero.
#[derive(Debug, Drop)]
pub struct Macro {
    /// The places.
    pub domain: Items<u32>,
    /// The relations.
    pub rels: Items<Rel>,
}

/// Where a choice leads.
#[derive(Debug, Drop)]
pub struct Edge {
    /// The number of a macro of the next level.
    pub to: u32,
    /// For each relation of that macro the number of the relation that it comes from, and the choice of its goal.
    pub from: Items<(u32, u32)>,
}

/// Why a macro of the last level is good.
#[derive(Clone, Copy, Debug, PartialEq, Eq)]
pub enum End {
    /// Each label of its domain is zero.
    Zero,
    /// The labels of the relation with this number are proportional.
    Rel(u32),
}

/// A certificate that each nonzero vector of an automaton has a match in others. A place is a position in a level of
/// the automaton, as `Store::levels` lists it.
#[derive(Debug, Drop)]
pub struct Cert {
    /// The macros of each level, from the roots' down.
    pub macros: Items<Items<Macro>>,
    /// For each level but the last, and each macro of it, an edge for each choice.
    pub edges: Items<Items<Items<Edge>>>,
    /// For each macro of the last level why it is good.
    pub ends: Items<End>,
}
