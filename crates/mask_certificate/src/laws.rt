//! Laws: each function does nothing, and its contract is a theorem about the definitions alone.

ghost use Rattle.std.specs.Prelude.{◌≡◌, ◌↔◌, ◌++◌, ℕ, List, length, Ok};
ghost use Rattle.mask_certificate.specs.Lists.{IsCertificate};
ghost use Rattle.mask_certificate.specs.CertificateText.{Spells, cert_text};
ghost use Rattle.mask_certificate.specs.CertificateReading.{cert_parse, lines_in, AreNames};
ghost use Rattle.mask_certificate.specs.declared.fault.MaskSpelling.{MaskSpelling};
ghost use Rattle.text_pieces.specs.Pieces.{IsLines};

/// Law: what is read is the certificate, with one list for each task, whose text it is in one of the two
/// spellings. So no text is read as a certificate that does not spell it, and each spelling of a certificate is
/// read as that certificate.
pub fn read_is_spelled()
    ensures { (text : List ℕ) (names : List (List ℕ)) (cert : List (List (ℕ × ℕ))) → AreNames names
        → (cert_parse text names ≡ Ok cert) ↔ Spells text names cert }
{}

/// Law: the text of a certificate with one list for each task is read as that certificate.
pub fn written_is_read()
    ensures { (cert : List (List (ℕ × ℕ))) (names : List (List ℕ)) → IsCertificate cert → AreNames names → length cert ≡ length names → cert_parse (cert_text cert names) names ≡ Ok cert }
{}

/// Law: the lines of a text that is cut after an LF are the front's and then the rest's. So a text in pieces is
/// read one piece after another.
pub fn lines_are_joined()
    ensures { (spelling : MaskSpelling) (front rest : List ℕ) → IsLines front
        → lines_in spelling (front ++ rest) ≡ lines_in spelling front ++ lines_in spelling rest }
{}
