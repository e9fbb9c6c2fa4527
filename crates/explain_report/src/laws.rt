//! Laws: each function does nothing, and its contract is a theorem about the definitions alone. To use one, call it.
ghost use Rattle.std.specs.Prelude.{◌≡◌, ◌↔◌, ℕ, List, [], Option, Ok};
ghost use Rattle.task_descriptor.specs.Listing.{Listing};
ghost use Rattle.task_graph.specs.Soundness.{Sound};
ghost use Rattle.annotated_asm.specs.ProgramText.{parse};
ghost use Rattle.explain_report.specs.declared.explained.Explanation.{Explanation};
ghost use Rattle.explain_report.specs.declared.repairing.Repaired.{Repaired};
ghost use Rattle.jobs.specs.declared.job.Warnings.{Warnings};
ghost use Rattle.judged_fixes.specs.Right.{IsRight, IsUnread};
ghost use Rattle.judged_fixes.specs.declared.judge.Marks.TheVariants.{Right, Unread};
ghost use Rattle.explain_report.specs.Explained.{Asked, IsExplained, alone};
ghost use Rattle.explain_report.specs.Repairs.{IsAuthorsBut, IsRepaired};

/// Where no certificate and no script is given and no warnings are asked for, a program has no diagnostics exactly where
/// its marks are sound, and only then the status is 0.
pub fn silent_where_sound()
    ensures said { (text : List ℕ) (p : Listing) (explained : Explanation) → parse text ≡ Ok p
        → IsExplained (alone text) explained → (explained.said ≡ []) ↔ Sound p }
    ensures status { (text : List ℕ) (p : Listing) (explained : Explanation) → parse text ≡ Ok p
        → IsExplained (alone text) explained → (explained.status ≡ 0) ↔ Sound p }
{}

/// The verdict of `explain` on the marks of a text holds: they are right exactly where the text spells a program whose
/// marks are sound, and unread exactly where it spells no program.
pub fn marks_are_told()
    ensures right { (asked : Asked) (explained : Explanation) → IsExplained asked explained → (explained.marks ≡ Right) ↔ IsRight asked.text }
    ensures unread { (asked : Asked) (explained : Explanation) → IsExplained asked explained → (explained.marks ≡ Unread) ↔ IsUnread asked.text }
{}

/// The text that `explain --fix` writes is the author's but for edits that the helps of its errors propose at their
/// places, and its marks are said to be right exactly where they are.
pub fn repairs_are_proposed()
    ensures authors { (cert_file script_file : Option (List ℕ)) (warnings : Warnings) (text certificate script : List ℕ) (r : Repaired)
        → IsRepaired cert_file script_file warnings text certificate script r → IsAuthorsBut text r.text }
    ensures right { (cert_file script_file : Option (List ℕ)) (warnings : Warnings) (text certificate script : List ℕ) (r : Repaired)
        → IsRepaired cert_file script_file warnings text certificate script r → (r.marks ≡ Right) ↔ IsRight r.text }
{}
