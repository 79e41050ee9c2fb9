// The form of an H.264 payload, and its conversion to Annex B.
ghost use Rattle.std.specs.Prelude.{◌≡◌, [], ◌∷◌};
ghost use Rattle.lent.specs.Outcome.{Outcome, answer_of, lent_after};
ghost use Rattle.annex_b.specs.Format.{is_avc_format_of};
ghost use Rattle.annex_b.specs.AnnexB.{count_of, annex_b_of, annex_number};

// Whether a payload is length-prefixed.
#[unsafe(no_mangle)]
pub extern "C" fn haythaw_is_avc_format(data: &[u8]) -> bool
    ensures { result ≡ is_avc_format_of «data».now }
{
    annex_b::is_avc_format(data)
}

// The units of a length-prefixed payload in Annex B, and how many bytes were written; 6 where the output is too short.
#[unsafe(no_mangle)]
pub extern "C" fn haythaw_avc_to_annex_b(data: &[u8], out: &mut [u8]) -> lent::Answer
    ensures { Outcome (answer_of (annex_number «data».now out.old) (count_of «data».now))
        (lent_after (annex_number «data».now out.old) out.old (annex_b_of «data».now out.old) ∷ [])
        result (out.new ∷ []) }
{
    annex_b::avc_to_annex_b_into(data, out)
}
