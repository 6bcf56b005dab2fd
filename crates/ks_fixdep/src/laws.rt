//! Laws of the definitions, each the contract of a function that does nothing.
ghost use Rattle.std.specs.Prelude.{◌≡◌, ◌∷◌, [], List, ℕ, Some, codes, map, flat_map, length};
ghost use Rattle.ks_fixdep.specs.Scan.{taken, bare_name};
ghost use Rattle.ks_fixdep.specs.Places.{ListsTaken};
ghost use Rattle.ks_fixdep.specs.Pieces.{EndedAreFollowed, PiecesGiveTheWhole};
ghost use Rattle.ks_fixdep.specs.FoundNames.{all_noted, names_in, names_of};
ghost use Rattle.ks_fixdep.specs.DialectExamples.{busybox_rows, coreboot_rows, uboot_rows};
ghost use Rattle.ks_fixdep.specs.Dialects.{names_as, names_in_as, rules_for};
ghost use Rattle.ks_fixdep.specs.Record.{deps_after, config_names};
ghost use Rattle.ks_fixdep.specs.DependencyFile.{prerequisites, dependency_refusal};
ghost use Rattle.ks_fixdep.specs.declared.command_file.Dep.TheVariants.{File, Config};
ghost use Rattle.ks_fixdep.specs.declared.dep_error.DepError.TheVariants as errors;
ghost use Rattle.ks_symbols.specs.declared.dialect.Dialect.TheVariants as dialect;
ghost use Rattle.ks_fixdep.specs.declared.dialect.ScanRules.TheVariants as rules;
ghost use Rattle.ks_fixdep.specs.declared.dependency_file.Role.{Role};
ghost use Rattle.ks_fixdep.specs.declared.dependency_file.Role.TheVariants as role;

/// What the scan of a text lists is exactly what is taken at one of its places, by rising place.
pub fn names_by_places()
    ensures { (t : List ℕ) → ListsTaken t }
{}

/// What is ended in a text are the names of it whose run is followed by a byte.
pub fn ended_names_are_followed()
    ensures { EndedAreFollowed }
{}

/// What a scanner borrows for the pieces of a text in turn, and at its end, is what the scan of the joined text lists.
pub fn pieces_give_the_whole()
    ensures { PiecesGiveTheWhole }
{}

/// The names of all sources are those of their whole texts, each once, by its first text and its first place there.
pub fn names_of_all_sources()
    ensures { (ts : List (List ℕ)) → names_of (map names_in ts) ≡ all_noted [] (flat_map (λ t. map bare_name (taken t)) ts) }
{}

/// The dependency lines of a record name what was found in all its prerequisites, and then elsewhere, each once and in that order.
pub fn names_of_a_record()
    ensures { (ps : List (List ℕ × Role)) (found : List (List (List ℕ))) → config_names (deps_after [] ps found) ≡ names_of found }
{}

/// Names inside words and with suffixes, the roles of three rules, a fault, and the dependency lines of a small object.
pub fn recording_examples()
    ensures names { map bare_name (taken (codes "HIS_CONFIG_A CONFIG_B_MODULE CONFIG_C_MODULE_MODULE")) ≡ codes "B" ∷ codes "C_MODULE" ∷ [] }
    ensures roles { prerequisites (codes "x.o: x.c\ny.o: t.s\nz.o: t.s u.h") ≡ (codes "x.c", role.Source) ∷ (codes "t.s", role.Scanned)
        ∷ (codes "u.h", role.Listed) ∷ [] }
    ensures fault { dependency_refusal (codes "x.o: x.c a$b.h") ≡ Some (errors.BadPath 3) }
    ensures lines { deps_after [] ((codes "x.c", role.Source) ∷ (codes "a.h", role.Listed) ∷ (codes "b.h", role.Listed) ∷ [])
        ((codes "A" ∷ codes "B" ∷ []) ∷ (codes "B" ∷ codes "C" ∷ []) ∷ (codes "A" ∷ []) ∷ [])
        ≡ Config (codes "A") ∷ Config (codes "B") ∷ File (codes "a.h") ∷ Config (codes "C") ∷ File (codes "b.h") ∷ [] }
{}

/// The words of Linux find in any text what is taken at its places.
pub fn linux_words_are_at_its_places()
    ensures { (t : List ℕ) → names_in_as rules.Linux t ≡ names_in t }
{}

/// Texts with their names in BusyBox and in coreboot, and in U-Boot by the target.
pub fn dialect_examples()
    ensures busybox { map (λ row. names_as rules.BusyBox row.0) busybox_rows ≡ map (λ row. row.1) busybox_rows }
    ensures coreboot { map (λ row. names_as rules.Coreboot row.0) coreboot_rows ≡ map (λ row. row.1) coreboot_rows }
    ensures uboot { map (λ row. names_as (rules_for dialect.UBoot row.0) row.1) uboot_rows ≡ map (λ row. row.2) uboot_rows }
{}
