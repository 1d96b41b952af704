//! Laws of the definitions, as contracts of functions that do nothing.
ghost use Rattle.std.specs.Prelude.{◌≡◌, Bool, List, [], map, Some, Ok};
ghost use Rattle.vw_design.specs.declared.design.Design.{Design};
ghost use Rattle.vw_text.specs.declared.line.Line.{Line};
ghost use Rattle.vw_blif.specs.declared.fault.TextFault.{TextFault};
ghost use Rattle.vw_blif.specs.CutLists.{CutList, cut_before};
ghost use Rattle.vw_blif.specs.Cuts.{IsCut};
ghost use Rattle.vw_blif.specs.Read.{first_fault, design_of};
ghost use Rattle.vw_blif.specs.FirstFault.{IsFirstFault};
ghost use Rattle.vw_blif.specs.Spelled.{SpelledModel, spelled_model};
ghost use Rattle.vw_blif.specs.Printed.{Printing, printed_by, printed_design};
ghost use Rattle.vw_blif.specs.PlainDesigns.{IsPlainDesign, IsPlainFor};

use vw_text::plain_lines_read;

/// Lines are cut in one way: the parts together are the lines, and a line begins something exactly where it is the
/// head of a part. No other cut is like that.
pub fn lines_are_cut()
    ensures cut { (begins : Line → Bool) (lines : List Line)
        → IsCut begins lines (cut_before begins lines) }
    ensures only { (begins : Line → Bool) (lines : List Line) (cut : CutList Line)
        → IsCut begins lines cut → cut ≡ cut_before begins lines }
{}

/// The fault of lines is the one that stands on a line with none on the lines before it.
pub fn the_first_fault_counts()
    ensures first { (lines : List Line) (fault : TextFault)
        → first_fault [] lines ≡ Some fault → IsFirstFault lines fault }
    ensures counts { (lines : List Line) (fault : TextFault)
        → IsFirstFault lines fault → first_fault [] lines ≡ Some fault }
{}

/// A design that is printed in the plain way is read back. So it is where a list without ports has its line, too, and
/// where a free latch is written `2` in place of `3`.
pub fn printed_designs_read()
    ensures plainly { (design : List SpelledModel) → IsPlainDesign design
        → design_of (printed_design design) ≡ Ok design }
    ensures otherwise { (printing : Printing) (design : List SpelledModel) → IsPlainFor printing design
        → design_of (printed_by printing design) ≡ Ok design }
{
    plain_lines_read();
}

/// Designs that spell the same are the same, so a text spells one design.
pub fn designs_spell_once()
    ensures { (one other : Design)
        → map spelled_model one.models ≡ map spelled_model other.models → one ≡ other }
{}
