//! Laws of modules and their conditions. Each function states one, and does nothing.

ghost use Rattle.wesl_cond_laws.specs.Laws.{MeaningStays, TwiceIsOnce, NoFaultIsMade};

/// What features leave of a module means the same, under each choice that they admit.
pub fn meaning_stays()
    ensures { MeaningStays }
{}

/// What features leave of a module they leave unchanged.
pub fn twice_is_once()
    ensures { TwiceIsOnce }
{}

/// What features leave of a module without error has none.
pub fn no_fault_is_made()
    ensures { NoFaultIsMade }
{}
