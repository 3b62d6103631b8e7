ghost use Rattle.std.specs.Prelude.{◌≡◌};
ghost use Rattle.mh_generated.specs.Texts.{generated_manifest, generated_scripts};

/// The manifest.
#[tactic(auto, unfolding(crate::specs::Texts::generated_manifest))]
pub(crate) fn manifest() -> &'static [u8]
    ensures { result.now ≡ generated_manifest }
{
    b"\
class made/Host java/lang/Object
static made/Host add (II)I iadd
static made/Host same (I)I same
"
}

/// The scripts: a script of the class that [`mh_made_class::make_class`] names for the bootstrap
/// methods.
#[tactic(auto, unfolding(crate::specs::Texts::generated_scripts))]
pub(crate) fn scripts() -> &'static [u8]
    ensures { result.now ≡ generated_scripts }
{
    b"\
script made/Boot link (Ljava/lang/invoke/MethodHandles$Lookup;Ljava/lang/String;\
Ljava/lang/invoke/MethodType;)Ljava/lang/invoke/CallSite;
let add leaf made/Host.add:(II)I
let one bind add 1 a0
let sam leaf made/Host.same:(I)I
let two filter one 0 sam
let end astype two type
return end
end
"
}
