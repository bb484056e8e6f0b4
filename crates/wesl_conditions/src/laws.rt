//! Laws of conditions. Each function states one, and does nothing.

ghost use Rattle.wesl_conditions.specs.Laws.{MeaningStays};

/// What features leave of a condition means the same, under each choice that they admit.
pub fn meaning_stays()
    ensures { MeaningStays }
{}
