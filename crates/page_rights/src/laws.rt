// What the definitions of changed ranges say of each page.
ghost use Rattle.std.specs.Prelude.{◌≡◌, ◌+◌, ◌≤◌, ℕ, List, length, if◌then◌else◌};
ghost use Rattle.page_rights.specs.declared.rights.Rights.{Rights};
ghost use Rattle.page_rights.specs.PageRights.{right_of_page, granted, lifted, lifted_range, within};

/// A page of a range has the rights that the range was given, or is lifted; others stay.
pub fn range_laws()
    ensures granted { (pages : List Rights) (first count page : ℕ) (to : Rights) → first + count ≤ length pages → right_of_page (granted pages first count to) page ≡ (if within first count page then to else right_of_page pages page) }
    ensures lifted { (pages : List Rights) (first count page : ℕ) → first + count ≤ length pages → right_of_page (lifted_range pages first count) page ≡ (if within first count page then lifted (right_of_page pages page) else right_of_page pages page) }
    ensures sizes { (pages : List Rights) (first count : ℕ) (to : Rights) → first + count ≤ length pages → length (granted pages first count to) ≡ length pages }
    ensures lifted_size { (pages : List Rights) (first count : ℕ) → first + count ≤ length pages → length (lifted_range pages first count) ≡ length pages }
{}
