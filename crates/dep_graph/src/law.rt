ghost use Rattle.dep_graph.specs.Apart.{DoAllIsApart};

/// A law: what DoAll means. In a program that keeps the rules, for all scalars and all opening words, any two turns of one
/// invocation that is DoAll are apart: no access of the one conflicts with one of the other, whatever the two read of
/// written arrays.
pub fn do_all_is_apart()
    ensures { DoAllIsApart }
{}
