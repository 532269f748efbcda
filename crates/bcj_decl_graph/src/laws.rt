ghost use Rattle.bcj_decl_graph.specs.Laws as law;

/// A type stands above itself just where a search along the steps from it finds its own place.
pub fn circles_are_reached()
    ensures { law.EachCircleIsReached }
{}

/// What passes to a type is what the types declare that a search along the steps from it finds, where the search takes no step from a
/// type that declares a method of the same name and parameters (JLS 8.4.8, 9.4.1).
pub fn passing_methods_are_reached()
    ensures { law.EachPassingMethodIsReached }
{}
