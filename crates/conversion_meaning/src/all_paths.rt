ghost use Rattle.conversion_meaning.specs.Laws.{AllPathsAreListed, AllPathsAreOnce, ListedAreAllPaths};

/// The list of all paths over a span has each path.
pub fn all_paths_are_listed()
    ensures { AllPathsAreListed }
{}

/// It has nothing else.
pub fn listed_are_all_paths()
    ensures { ListedAreAllPaths }
{}

/// It has each path once.
pub fn all_paths_are_once()
    ensures { AllPathsAreOnce }
{}
