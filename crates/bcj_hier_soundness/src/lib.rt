//! Laws of mixtures of classes: what a reader expects of their definitions.
#![tactic(auto)]

ghost use Rattle.bcj_hier_soundness.specs.Laws as law;

/// The searches find each chain of steps, and nothing else.
pub fn searches_find_steps()
    ensures below { law.EachClassBelowIsFound }
    ensures implements { law.EachInterfaceIsFound }
{}

/// A search for why a type doesn't load ends within its turns, and the types above a type that loads load.
pub fn more_turns_change_nothing()
    ensures turns { law.TurnsSuffice }
    ensures there { law.EachThatLoadsIsThere }
    ensures superclasses { law.SuperclassesLoad }
    ensures superinterfaces { law.SuperinterfacesLoad }
{}

/// The numbers of the classes below a class are one interval, and each class that loads has one number.
pub fn below_is_an_interval()
    ensures intervals { law.BelowByInterval }
    ensures once { law.EachClassStandsOnce }
    ensures none_else { law.EachThatStandsLoads }
    ensures met { law.SomeIsHierarchy }
{}

/// What a reference resolves to is a member that fits, declared by a type that steps lead to from the type that is named.
pub fn resolution_finds_members()
    ensures fields { law.FieldsAreMembers }
    ensures methods { law.MethodsAreMembers }
    ensures constructors { law.ConstructorsAreOwn }
    ensures interface_methods { law.InterfaceMethodsAreMembers }
{}

/// Bodies and members aside, the heads of a mixture decide what loads, which pairs hold, what is an instance and how classes are numbered.
pub fn heads_decide()
    ensures find { law.HeadsFind }
    ensures count { law.HeadsCount }
    ensures interfaces { law.HeadsTellInterfaces }
    ensures loading { law.HeadsLoad }
    ensures below { law.HeadsStepUp }
    ensures implements { law.HeadsImplement }
    ensures elements { law.HeadsLoadElements }
    ensures types { law.HeadsLoadTypes }
    ensures pairs { law.HeadsPair }
    ensures instances { law.HeadsTellInstances }
    ensures is_child { law.HeadsTellChildren }
    ensures children { law.HeadsHaveChildren }
    ensures order_below { law.HeadsOrderBelow }
    ensures order { law.HeadsOrder }
    ensures low { law.HeadsNumber }
    ensures high { law.HeadsEndNumbers }
    ensures next { law.HeadsGoOn }
{}

/// Heads without a name twice, of which only Object and the interfaces have no superclass, make a hierarchy; a name finds the head at its number.
pub fn heads_make_hierarchies()
    ensures hierarchies { law.HeadsMakeHierarchies }
    ensures numbers { law.NamesHaveNumbers }
    ensures are_found { law.HeadsAreFound }
    ensures stand { law.NumbersStand }
    ensures none { law.NoneIsMissed }
{}

/// The steps of a type are those of its supertypes and none more; the classes above one that loads load.
pub fn steps_by_parts()
    ensures implements { law.ImplementsByParts }
    ensures below { law.BelowByParts }
    ensures loading { law.ClassesAboveLoad }
{}

/// Why a type does not load is told by its superclass and its superinterfaces, whatever way led to it.
pub fn loads_by_parts()
    ensures parts { law.LoadsByParts }
{}

/// Types each of which waits for one of them do not load, for a circle.
pub fn circles_fail()
    ensures circles { law.CirclesFail }
    ensures met { law.SomeWait }
{}

/// A walk that meets a class and then its children, in the order of the mixture, meets the classes in preorder, from a root that loads.
pub fn walks_go_on()
    ensures children { law.ChildrenLoad }
    ensures unrolls { law.PreorderUnrolls }
    ensures on { law.WalkGoesOn }
    ensures roots { law.RootsLoad }
    ensures hierarchies { law.RootsMakeHierarchies }
    ensures met { law.SomeIsRooted }
{}

/// Each place in preorder has one name, whose number is one more than the place; each class that loads has a place, and there are no more places than types.
pub fn places_are_numbers()
    ensures before { law.NoneStandsBefore }
    ensures behind { law.LowBehind }
    ensures low { law.LowIsPlace }
    ensures differ { law.PlacesDiffer }
    ensures stand { law.ClassesStand }
    ensures loading { law.PlacesLoad }
    ensures few { law.FewStand }
{}
