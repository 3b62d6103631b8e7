ghost use Rattle.std.specs.Prelude.{◌≡◌, length};

/// Class `made/Main` with the method `run()V`, whose code is `return`, and no call sites: 271
/// bytes.
pub fn made() -> &'static [u8]
    ensures { length result.now ≡ 271 }
{
    b"\
    \xCA\xFE\xBA\xBE\0\0\0=\0\x0D\x01\0\x09made/Main\x07\0\x01\x01\0\x10java/lang/Object\
    \x07\0\x03\x01\0\x03run\x01\0\x03()V\x01\0\x04Code\x01\0\x10BootstrapMethods\
    \x01\0\x09made/Boot\x07\0\x09\
    \x01\0s(Ljava/lang/invoke/MethodHandles$Lookup;Ljava/lang/String;Ljava/lang/invoke/M\
    ethodType;)Ljava/lang/invoke/CallSite;\x01\0\x01f\
    \0!\0\x02\0\x04\0\0\0\0\0\x01\0\x09\0\x05\
    \0\x06\0\x01\0\x07\0\0\0\x0D\0\x02\0\0\0\0\
    \0\x01\xB1\0\0\0\0\0\x01\0\x08\0\0\0\x02\0\
    \0"
}

/// The same with a call site `f (II)I`, whose bootstrap method is `made/Boot.link`: 319 bytes.
pub fn made_site() -> &'static [u8]
    ensures { length result.now ≡ 319 }
{
    b"\
    \xCA\xFE\xBA\xBE\0\0\0=\0\x14\x01\0\x09made/Main\x07\0\x01\x01\0\x10java/lang/Object\
    \x07\0\x03\x01\0\x03run\x01\0\x03()V\x01\0\x04Code\x01\0\x10BootstrapMethods\
    \x01\0\x09made/Boot\x07\0\x09\
    \x01\0s(Ljava/lang/invoke/MethodHandles$Lookup;Ljava/lang/String;Ljava/lang/invoke/M\
    ethodType;)Ljava/lang/invoke/CallSite;\x01\0\x01f\x01\0\x04link\x0C\0\x0D\0\x0B\
    \x0A\0\x0A\0\x0E\x0F\x06\0\x0F\x01\0\x05(II)I\x0C\0\x0C\0\x11\x12\0\0\0\x12\
    \0!\0\x02\0\x04\0\0\0\0\0\x01\0\x09\0\x05\
    \0\x06\0\x01\0\x07\0\0\0\x12\0\x02\0\0\0\0\
    \0\x06\xBA\0\x13\0\0\xB1\0\0\0\0\0\x01\0\x08\
    \0\0\0\x06\0\x01\0\x10\0\0"
}

/// Class `demo/Main` made of parts that javac writes, with `run(I)V`, whose code is a tableswitch
/// and two call sites: of a string concatenation and of a lambda expression.
pub fn demo() -> &'static [u8]
    ensures { length result.now ≡ 1019 }
{
    b"\
    \xCA\xFE\xBA\xBE\0\0\0=\0/\x01\0\x09demo/Main\x07\0\x01\x01\0\x10java/lang/Object\
    \x07\0\x03\x01\0$java/lang/invoke/StringConcatFactory\x07\0\x05\
    \x01\0\x17makeConcatWithConstants\
    \x01\0\x98(Ljava/lang/invoke/MethodHandles$Lookup;Ljava/lang/String;Ljava/lang/invok\
    e/MethodType;Ljava/lang/String;[Ljava/lang/Object;)Ljava/lang/invoke/CallSite;\
    \x0C\0\x07\0\x08\x0A\0\x06\0\x09\x0F\x06\0\x0A\x01\0\x03x=\x01\x08\0\x0C\
    \x01\0\x03()V\x10\0\x0E\x01\0\x0Clambda$run$0\x0C\0\x10\0\x0E\x0A\0\x02\0\x11\
    \x0F\x06\0\x12\x01\0\"java/lang/invoke/LambdaMetafactory\x07\0\x14\
    \x01\0\x0Bmetafactory\
    \x01\0\xCC(Ljava/lang/invoke/MethodHandles$Lookup;Ljava/lang/String;Ljava/lang/invok\
    e/MethodType;Ljava/lang/invoke/MethodType;Ljava/lang/invoke/MethodHandle;Ljava/lang/\
    invoke/MethodType;)Ljava/lang/invoke/CallSite;\x0C\0\x16\0\x17\x0A\0\x15\0\x18\
    \x0F\x06\0\x19\x01\0\x15(I)Ljava/lang/String;\x0C\0\x07\0\x1B\x12\0\0\0\x1C\
    \x01\0\x03run\x01\0\x16()Ljava/lang/Runnable;\x0C\0\x1E\0\x1F\x12\0\x01\0\x20\
    \x01\0\x0FLineNumberTable\x01\0\x0DStackMapTable\x01\0\x04(I)V\x01\0\x04Code\
    \x01\0%java/lang/invoke/MethodHandles$Lookup\x07\0&\
    \x01\0\x1Ejava/lang/invoke/MethodHandles\x07\0(\x01\0\x09Main.java\
    \x01\0\x0ASourceFile\x01\0\x06Lookup\x01\0\x0CInnerClasses\x01\0\x10BootstrapMethods\
    \0!\0\x02\0\x04\0\0\0\0\0\x01\0\x09\0\x1E\
    \0$\0\x01\0%\0\0\0C\0\x04\0\x04\0\0\
    \0\"\x1A\xAA\0\0\0\0\0\x13\0\0\0\x01\0\0\
    \0\x01\0\0\0\x13\x1A\xBA\0\x1D\0\0W\xBA\0!\
    \0\0W\xB1\0\0\0\x02\0\"\0\0\0\x06\0\x01\
    \0\0\0\x03\0#\0\0\0\x03\0\x01\x14\0\x03\0\
    +\0\0\0\x02\0*\0-\0\0\0\x0A\0\x01\0\
    '\0)\0,\0\x19\0.\0\0\0\x12\0\x02\0\
    \x0B\0\x01\0\x0D\0\x1A\0\x03\0\x0F\0\x13\0\x0F"
}

/// Class `all/Tags`, of the oldest version, with an entry of each tag, an interface, a field, a
/// method without code, and a bootstrap method that is given each kind of argument.
pub fn all_tags() -> &'static [u8]
    ensures { length result.now ≡ 273 }
{
    b"\
    \xCA\xFE\xBA\xBE\0\0\0-\0\x20\x01\0\x08all/Tags\x07\0\x01\x01\0\x10java/lang/Object\
    \x07\0\x03\x03\xFF\xFF\xFF\xFE\x04?\x80\0\0\x05\xFF\xFF\xFF\xFF\xFF\xFF\xFF\xFD\
    \x06?\xF0\0\0\0\0\0\0\x01\0\x06\xED\xA0\xBD\xED\xB8\x80\x08\0\x0B\x01\0\x01m\
    \x01\0\x03()V\x01\0\x01I\x0C\0\x0D\0\x0E\x0C\0\x0D\0\x0F\x09\0\x02\0\x11\
    \x0A\0\x02\0\x10\x0B\0\x02\0\x10\x0F\x01\0\x12\x0F\x08\0\x13\x0F\x09\0\x14\
    \x0F\x06\0\x14\x10\0\x0E\x11\0\0\0\x11\x12\0\0\0\x10\x13\0\x0D\x14\0\x0D\
    \x01\0\x10BootstrapMethods\x01\0\x0ADeprecated\
    \0!\0\x02\0\x04\0\x01\0\x04\0\x01\0\0\0\x0D\
    \0\x0F\0\x01\0\x1F\0\0\0\0\0\x01\x04\x01\0\x0D\
    \0\x0E\0\x01\0\x1F\0\0\0\x01x\0\x02\0\x1F\0\
    \0\0\0\0\x1E\0\0\0\x18\0\x01\0\x18\0\x09\0\
    \x05\0\x06\0\x07\0\x09\0\x02\0\x0C\0\x16\0\x19\0\
    \x1A"
}

/// The bytes of [`made`] before the length of its `Code` attribute.
pub fn code_front() -> &'static [u8]
    ensures { length result.now ≡ 244 }
{
    b"\
    \xCA\xFE\xBA\xBE\0\0\0=\0\x0D\x01\0\x09made/Main\x07\0\x01\x01\0\x10java/lang/Object\
    \x07\0\x03\x01\0\x03run\x01\0\x03()V\x01\0\x04Code\x01\0\x10BootstrapMethods\
    \x01\0\x09made/Boot\x07\0\x09\
    \x01\0s(Ljava/lang/invoke/MethodHandles$Lookup;Ljava/lang/String;Ljava/lang/invoke/M\
    ethodType;)Ljava/lang/invoke/CallSite;\x01\0\x01f\
    \0!\0\x02\0\x04\0\0\0\0\0\x01\0\x09\0\x05\
    \0\x06\0\x01\0\x07"
}
