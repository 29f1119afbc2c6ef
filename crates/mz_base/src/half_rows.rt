use crate::HalfRow;

/// The characters that have a half width form. A voiced one is the form of its plain letter, and a sound mark.
pub const HALF_ROWS: [HalfRow; 87] = [
    HalfRow {
        full: 'ヲ',
        half: 'ｦ',
        mark: None,
    },
    HalfRow {
        full: 'ァ',
        half: 'ｧ',
        mark: None,
    },
    HalfRow {
        full: 'ィ',
        half: 'ｨ',
        mark: None,
    },
    HalfRow {
        full: 'ゥ',
        half: 'ｩ',
        mark: None,
    },
    HalfRow {
        full: 'ェ',
        half: 'ｪ',
        mark: None,
    },
    HalfRow {
        full: 'ォ',
        half: 'ｫ',
        mark: None,
    },
    HalfRow {
        full: 'ャ',
        half: 'ｬ',
        mark: None,
    },
    HalfRow {
        full: 'ュ',
        half: 'ｭ',
        mark: None,
    },
    HalfRow {
        full: 'ョ',
        half: 'ｮ',
        mark: None,
    },
    HalfRow {
        full: 'ッ',
        half: 'ｯ',
        mark: None,
    },
    HalfRow {
        full: 'ー',
        half: 'ｰ',
        mark: None,
    },
    HalfRow {
        full: 'ア',
        half: 'ｱ',
        mark: None,
    },
    HalfRow {
        full: 'イ',
        half: 'ｲ',
        mark: None,
    },
    HalfRow {
        full: 'ウ',
        half: 'ｳ',
        mark: None,
    },
    HalfRow {
        full: 'エ',
        half: 'ｴ',
        mark: None,
    },
    HalfRow {
        full: 'オ',
        half: 'ｵ',
        mark: None,
    },
    HalfRow {
        full: 'カ',
        half: 'ｶ',
        mark: None,
    },
    HalfRow {
        full: 'キ',
        half: 'ｷ',
        mark: None,
    },
    HalfRow {
        full: 'ク',
        half: 'ｸ',
        mark: None,
    },
    HalfRow {
        full: 'ケ',
        half: 'ｹ',
        mark: None,
    },
    HalfRow {
        full: 'コ',
        half: 'ｺ',
        mark: None,
    },
    HalfRow {
        full: 'サ',
        half: 'ｻ',
        mark: None,
    },
    HalfRow {
        full: 'シ',
        half: 'ｼ',
        mark: None,
    },
    HalfRow {
        full: 'ス',
        half: 'ｽ',
        mark: None,
    },
    HalfRow {
        full: 'セ',
        half: 'ｾ',
        mark: None,
    },
    HalfRow {
        full: 'ソ',
        half: 'ｿ',
        mark: None,
    },
    HalfRow {
        full: 'タ',
        half: 'ﾀ',
        mark: None,
    },
    HalfRow {
        full: 'チ',
        half: 'ﾁ',
        mark: None,
    },
    HalfRow {
        full: 'ツ',
        half: 'ﾂ',
        mark: None,
    },
    HalfRow {
        full: 'テ',
        half: 'ﾃ',
        mark: None,
    },
    HalfRow {
        full: 'ト',
        half: 'ﾄ',
        mark: None,
    },
    HalfRow {
        full: 'ナ',
        half: 'ﾅ',
        mark: None,
    },
    HalfRow {
        full: 'ニ',
        half: 'ﾆ',
        mark: None,
    },
    HalfRow {
        full: 'ヌ',
        half: 'ﾇ',
        mark: None,
    },
    HalfRow {
        full: 'ネ',
        half: 'ﾈ',
        mark: None,
    },
    HalfRow {
        full: 'ノ',
        half: 'ﾉ',
        mark: None,
    },
    HalfRow {
        full: 'ハ',
        half: 'ﾊ',
        mark: None,
    },
    HalfRow {
        full: 'ヒ',
        half: 'ﾋ',
        mark: None,
    },
    HalfRow {
        full: 'フ',
        half: 'ﾌ',
        mark: None,
    },
    HalfRow {
        full: 'ヘ',
        half: 'ﾍ',
        mark: None,
    },
    HalfRow {
        full: 'ホ',
        half: 'ﾎ',
        mark: None,
    },
    HalfRow {
        full: 'マ',
        half: 'ﾏ',
        mark: None,
    },
    HalfRow {
        full: 'ミ',
        half: 'ﾐ',
        mark: None,
    },
    HalfRow {
        full: 'ム',
        half: 'ﾑ',
        mark: None,
    },
    HalfRow {
        full: 'メ',
        half: 'ﾒ',
        mark: None,
    },
    HalfRow {
        full: 'モ',
        half: 'ﾓ',
        mark: None,
    },
    HalfRow {
        full: 'ヤ',
        half: 'ﾔ',
        mark: None,
    },
    HalfRow {
        full: 'ユ',
        half: 'ﾕ',
        mark: None,
    },
    HalfRow {
        full: 'ヨ',
        half: 'ﾖ',
        mark: None,
    },
    HalfRow {
        full: 'ラ',
        half: 'ﾗ',
        mark: None,
    },
    HalfRow {
        full: 'リ',
        half: 'ﾘ',
        mark: None,
    },
    HalfRow {
        full: 'ル',
        half: 'ﾙ',
        mark: None,
    },
    HalfRow {
        full: 'レ',
        half: 'ﾚ',
        mark: None,
    },
    HalfRow {
        full: 'ロ',
        half: 'ﾛ',
        mark: None,
    },
    HalfRow {
        full: 'ワ',
        half: 'ﾜ',
        mark: None,
    },
    HalfRow {
        full: 'ン',
        half: 'ﾝ',
        mark: None,
    },
    HalfRow {
        full: 'ガ',
        half: 'ｶ',
        mark: Some('ﾞ'),
    },
    HalfRow {
        full: 'ギ',
        half: 'ｷ',
        mark: Some('ﾞ'),
    },
    HalfRow {
        full: 'グ',
        half: 'ｸ',
        mark: Some('ﾞ'),
    },
    HalfRow {
        full: 'ゲ',
        half: 'ｹ',
        mark: Some('ﾞ'),
    },
    HalfRow {
        full: 'ゴ',
        half: 'ｺ',
        mark: Some('ﾞ'),
    },
    HalfRow {
        full: 'ザ',
        half: 'ｻ',
        mark: Some('ﾞ'),
    },
    HalfRow {
        full: 'ジ',
        half: 'ｼ',
        mark: Some('ﾞ'),
    },
    HalfRow {
        full: 'ズ',
        half: 'ｽ',
        mark: Some('ﾞ'),
    },
    HalfRow {
        full: 'ゼ',
        half: 'ｾ',
        mark: Some('ﾞ'),
    },
    HalfRow {
        full: 'ゾ',
        half: 'ｿ',
        mark: Some('ﾞ'),
    },
    HalfRow {
        full: 'ダ',
        half: 'ﾀ',
        mark: Some('ﾞ'),
    },
    HalfRow {
        full: 'ヂ',
        half: 'ﾁ',
        mark: Some('ﾞ'),
    },
    HalfRow {
        full: 'ヅ',
        half: 'ﾂ',
        mark: Some('ﾞ'),
    },
    HalfRow {
        full: 'デ',
        half: 'ﾃ',
        mark: Some('ﾞ'),
    },
    HalfRow {
        full: 'ド',
        half: 'ﾄ',
        mark: Some('ﾞ'),
    },
    HalfRow {
        full: 'バ',
        half: 'ﾊ',
        mark: Some('ﾞ'),
    },
    HalfRow {
        full: 'ビ',
        half: 'ﾋ',
        mark: Some('ﾞ'),
    },
    HalfRow {
        full: 'ブ',
        half: 'ﾌ',
        mark: Some('ﾞ'),
    },
    HalfRow {
        full: 'ベ',
        half: 'ﾍ',
        mark: Some('ﾞ'),
    },
    HalfRow {
        full: 'ボ',
        half: 'ﾎ',
        mark: Some('ﾞ'),
    },
    HalfRow {
        full: 'ヴ',
        half: 'ｳ',
        mark: Some('ﾞ'),
    },
    HalfRow {
        full: 'パ',
        half: 'ﾊ',
        mark: Some('ﾟ'),
    },
    HalfRow {
        full: 'ピ',
        half: 'ﾋ',
        mark: Some('ﾟ'),
    },
    HalfRow {
        full: 'プ',
        half: 'ﾌ',
        mark: Some('ﾟ'),
    },
    HalfRow {
        full: 'ペ',
        half: 'ﾍ',
        mark: Some('ﾟ'),
    },
    HalfRow {
        full: 'ポ',
        half: 'ﾎ',
        mark: Some('ﾟ'),
    },
    HalfRow {
        full: '。',
        half: '｡',
        mark: None,
    },
    HalfRow {
        full: '「',
        half: '｢',
        mark: None,
    },
    HalfRow {
        full: '」',
        half: '｣',
        mark: None,
    },
    HalfRow {
        full: '、',
        half: '､',
        mark: None,
    },
    HalfRow {
        full: '・',
        half: '･',
        mark: None,
    },
];
